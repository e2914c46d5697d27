ghost use Rattle.std.specs.Prelude.{◌≡◌};
ghost use Rattle.cable_base.specs.Names.{is_reserved};

/// Whether callbacks may neither hold nor cast to the name.
pub fn is_reserved(name: &str) -> bool
    ensures { result ≡ is_reserved name.now }
{
    name.as_bytes().starts_with(b"action_cable/")
}
