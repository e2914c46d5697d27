ghost use Rattle.std.specs.Prelude.{◌≡◌, option_map, find};
ghost use Rattle.std.specs.List.{slice_split};
ghost use Rattle.ws_gate.specs.Tokens.{is_ampersand, names_token, token_behind, token_in};

fn names_token(part: &str) -> bool
    ensures { result ≡ names_token part.now }
{
    part.starts_with("token=")
}

/// The first part of a query that begins with `token=`.
fn token_part(query: &str) -> Option<&str>
    ensures { option_map (λ s. s.now) result ≡ find names_token (slice_split is_ampersand query.now) }
{
    query.split('&').find(|part| names_token(part))
}

/// What stands behind `token=`, where the part begins so.
fn token_behind(part: &str) -> Option<&str>
    ensures { option_map (λ s. s.now) result ≡ token_behind part.now }
{
    part.strip_prefix("token=")
}

/// What stands behind `token=` in the first part of a query that begins so.
#[tactic(auto, unfolding(crate::specs::Tokens::token_in))]
pub fn token_in(query: &str) -> Option<&str>
    ensures { option_map (λ s. s.now) result ≡ token_in query.now }
{
    let part = token_part(query)?;
    token_behind(part)
}
