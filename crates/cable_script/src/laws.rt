ghost use Rattle.std.specs.Prelude.{◌≡◌, ◌↔◌, ◌++◌, ℕ, List, IsUtf8, Ok, Err};
ghost use Rattle.cable_model.specs.declared.verbs.Verb.{Verb};
ghost use Rattle.cable_model.specs.declared.events.Event.{Event};
ghost use Rattle.cable_model.specs.declared.statuses.Status.{Status};
ghost use Rattle.cable_model.specs.declared.verbs.Verb.TheVariants as verb;
ghost use Rattle.cable_model.specs.Breaks.{GoodLines, AreGood, BreaksIn, FirstBreak, IsUnbroken};
ghost use Rattle.cable_model.specs.Printed.{event_line, CanBePrinted};
ghost use Rattle.cable_model.specs.Script.{Script, IsScript, IsLine, Spells};
ghost use Rattle.cable_script.specs.declared.faults.LineFault.{LineFault};
ghost use Rattle.cable_script.specs.declared.faults.LineFault.TheVariants as fault;
ghost use Rattle.cable_script.specs.LineFaults.{HasFault};
ghost use Rattle.cable_script.specs.Prints.{PrintsAs};
ghost use Rattle.cable_script.specs.Reading.{verb_of};

use cable_base::squeezing_keeps_the_value;

/// The lines that are read as a verb are exactly the UTF-8 lines that spell it in the grammar.
pub fn lines_are_read()
    ensures read { (line : List ℕ) (v : Verb) → (verb_of line ≡ Ok v) ↔ (IsUtf8 line × Spells v line) }

    // So a line that may stand between line feeds is read exactly where the grammar has it.
    ensures line { (line : List ℕ) (v : Verb) → IsLine line → (verb_of line ≡ Ok v) ↔ Spells v line }
    ensures utf8 { (line : List ℕ) → (verb_of line ≡ Err fault.NotUtf8) ↔ (¬ IsUtf8 line) }

    // Want of memory is no property of a line.
    ensures memory { (line : List ℕ) → ¬ (verb_of line ≡ Err fault.OutOfMemory) }
{}

/// A line has a fault exactly where it breaks the rule of that fault, and none of the rules before it.
pub fn lines_have_their_first_fault()
    ensures { (line : List ℕ) (f : LineFault) → (verb_of line ≡ Err f) ↔ HasFault f line }
{}

/// What is printed of an event stands for exactly this event, where a script can have it.
pub fn printed_lines_are_read()
    ensures { (e : Event) → CanBePrinted e → verb_of (event_line e) ≡ Ok (verb.One e) }
{}

/// A script that is printed is a script of the same book and the same events.
pub fn printed_scripts_say_the_same()
    ensures { (bytes : List ℕ) (s : Script) → IsScript bytes s → PrintsAs s }
{
    squeezing_keeps_the_value();
}

/// Bytes have at most one first break, with the good lines before it, and a script has none.
pub fn first_breaks_are_one()
    ensures lines { (bytes : List ℕ) (a b : GoodLines) (s t : Status) → FirstBreak bytes a s → FirstBreak bytes b t → a ≡ b }
    ensures status { (bytes : List ℕ) (a b : GoodLines) (s t : Status) → FirstBreak bytes a s → FirstBreak bytes b t → s ≡ t }
    ensures scripts { (bytes : List ℕ) (a : GoodLines) (s : Status) (script : Script) → FirstBreak bytes a s → ¬ IsScript bytes script }
    ensures open { (bytes : List ℕ) (a b : GoodLines) (s : Status) → BreaksIn bytes a s → ¬ IsUnbroken bytes b }
    ensures one_script { (bytes : List ℕ) (s t : Script) → IsScript bytes s → IsScript bytes t → s ≡ t }

    // A break that shows stays the first, whatever comes behind the bytes.
    ensures stays { (bytes more : List ℕ) (a : GoodLines) (s : Status) → BreaksIn bytes a s → BreaksIn (bytes ++ more) a s }
{}
