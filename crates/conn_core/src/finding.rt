ghost use Rattle.std.specs.Prelude.{◌≡◌, find, option_map};
ghost use Rattle.conn_core.specs.Subscriptions.{shown, has_identifier, has_number};

use crate::subscriptions::Sub;
use cable_base::SubNo;

/// The first of the subscriptions with this identifier. It is `None` where none has it. It takes no memory.
pub fn sub_named<'a>(subs: &'a [Sub], identifier: &str) -> Option<&'a Sub>
    ensures { option_map (λ s. s.now) result ≡ find (λ s. has_identifier identifier.now (shown s)) subs.now }
{
    subs.iter().find(|sub| sub.identifier() == identifier)
}

/// The first of the subscriptions with this number. It is `None` where none has it. It takes no memory.
pub fn sub_numbered(subs: &[Sub], number: SubNo) -> Option<&Sub>
    ensures { option_map (λ s. s.now) result ≡ find (λ s. has_number number (shown s)) subs.now }
{
    subs.iter().find(|sub| sub.number() == number)
}
