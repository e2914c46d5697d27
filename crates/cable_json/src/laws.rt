ghost use Rattle.std.specs.Prelude.{◌≡◌, ◌↔◌, ◌<◌, ◌^◌, ℕ, List, Bool, codes};
ghost use Rattle.serde_json.specs.Data.{Data, boolean, number, string, unsigned};
ghost use Rattle.cable_json.specs.declared.commands.Command.{Command};
ghost use Rattle.cable_json.specs.declared.commands.CommandFault.TheVariants as fault;
ghost use Rattle.cable_json.specs.declared.reasons.Reason.{Reason};
ghost use Rattle.cable_json.specs.Commands.{command_of, Says, IsObject};
ghost use Rattle.cable_json.specs.Disconnects.{disconnect_of, SaysDisconnect};
ghost use Rattle.cable_json.specs.Texts.{welcome_text, ping_text, confirm_text, reject_text, disconnect_text, reason_word, one_member, two_members, three_members, ReadsAs};

/// A text is a command exactly where its members say it, and it is bad JSON exactly where it is no object.
pub fn commands_are_what_texts_say()
    ensures says { (text : List ℕ) (command : Command) → (command_of text ≡ Ok command) ↔ Says text command }
    ensures bad_json { (text : List ℕ) → (command_of text ≡ Err fault.BadJson) ↔ (¬ IsObject text) }

    // Want of memory is no property of a text.
    ensures memory { (text : List ℕ) → ¬ (command_of text ≡ Err fault.OutOfMemory) }
{}

/// A payload is a disconnect exactly where it is an object whose type says so, and only the value `false` says no.
pub fn disconnects_are_what_payloads_say()
    ensures { (payload : List ℕ) (reconnect : Bool)
        → (disconnect_of payload ≡ Some reconnect) ↔ ((value : Data) × SaysDisconnect payload reconnect value) }
{}

/// What a client reads of the texts that carry no payload. None has white space outside strings.
pub fn texts_read_back()
    ensures welcome { ReadsAs welcome_text (one_member (codes "type") (string (codes "welcome"))) }
    ensures ping { (seconds : ℕ) → seconds < 2 ^ 64
        → ReadsAs (ping_text seconds) (two_members (codes "message") (number (unsigned seconds)) (codes "type") (string (codes "ping"))) }
    ensures confirm { (identifier : List ℕ)
        → ReadsAs (confirm_text identifier) (two_members (codes "identifier") (string identifier) (codes "type") (string (codes "confirm_subscription"))) }
    ensures reject { (identifier : List ℕ)
        → ReadsAs (reject_text identifier) (two_members (codes "identifier") (string identifier) (codes "type") (string (codes "reject_subscription"))) }
    ensures disconnect { (reason : Reason) (reconnect : Bool)
        → ReadsAs (disconnect_text reason reconnect)
        (three_members (codes "reason") (string (reason_word reason)) (codes "reconnect") (boolean reconnect) (codes "type") (string (codes "disconnect"))) }
{}
