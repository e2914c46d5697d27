ghost use Rattle.std.specs.Prelude.{IfOk};
ghost use Rattle.cable_link.specs.Memory.{AllCome};

use cable_base::{OutOfMemory, Text};
use cable_link::Came;
use std::alloc::Global;

/// A client from which nothing comes.
pub fn silent(alloc: Global) -> Vec<Came>
    ensures { AllCome result.items }
{
    Vec::new(alloc)
}

/// Then a text comes.
pub fn with_text(alloc: Global, coming: Vec<Came>, text: &str) -> Result<Vec<Came>, OutOfMemory>
    requires { AllCome coming.items }
    ensures { IfOk result (λ all. AllCome all.items) }
{
    let mut coming = coming;
    coming.push(Came::Text(Text::new(alloc, text)?))?;
    Ok(coming)
}

/// Then a message comes that isn't a text.
pub fn with_binary(coming: Vec<Came>) -> Result<Vec<Came>, OutOfMemory>
    requires { AllCome coming.items }
    ensures { IfOk result (λ all. AllCome all.items) }
{
    let mut coming = coming;
    coming.push(Came::Binary)?;
    Ok(coming)
}

/// Then the client closes its link.
pub fn with_closed(coming: Vec<Came>) -> Result<Vec<Came>, OutOfMemory>
    requires { AllCome coming.items }
    ensures { IfOk result (λ all. AllCome all.items) }
{
    let mut coming = coming;
    coming.push(Came::Closed)?;
    Ok(coming)
}

/// The calls of a link that are to fail.
pub fn failing(alloc: Global, calls: &[u64]) -> Result<Vec<u64>, OutOfMemory> {
    let mut failing = Vec::new(alloc);
    failing.extend_from_slice(calls)?;
    Ok(failing)
}

/// Whether the texts are these.
pub fn are(found: &[Text], texts: &[&str]) -> bool {
    if found.len() != texts.len() {
        return false;
    }
    for (found, text) in found.iter().zip(texts) {
        if found.as_str() != *text {
            return false;
        }
    }
    true
}
