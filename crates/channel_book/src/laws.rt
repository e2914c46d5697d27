ghost use Rattle.std.specs.Prelude.{◌≡◌, List, ℕ, Option, Some, Ok, option_map};
ghost use Rattle.serde_json.specs.Data.{Data};
ghost use Rattle.channel_book.specs.Shapes.{requires_in};
ghost use Rattle.channel_book.specs.declared.templates.Template.{Template};
ghost use Rattle.channel_book.specs.Templates.{template_of, filling, IsPlain, ArePlain, IsTemplate};

/// A text is read as a template exactly where it is plain text, and known names in braces with plain text behind each. Nothing of
/// the text is lost.
pub fn templates_are_texts_with_names()
    ensures read { (names : List (List ℕ)) (text : List ℕ) (t : Template) → template_of names text ≡ Some t → IsTemplate names text t }
    ensures written { (names : List (List ℕ)) (text : List ℕ) (t : Template) → ArePlain names → IsTemplate names text t → template_of names text ≡ Some t }
{}

/// The names that a channel requires have no braces.
pub fn required_names_are_plain()
    ensures { (names_at : Option Data) (names : List (List ℕ)) → requires_in names_at ≡ Ok names → ArePlain names }
{}

/// A text without braces is a template, and it is filled in to itself.
pub fn plain_texts_stay()
    ensures { (names : List (List ℕ)) (text user : List ℕ) (identifier : Data) → IsPlain text → option_map (filling user identifier) (template_of names text) ≡ Some text }
{}
