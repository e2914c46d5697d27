ghost use Rattle.std.specs.Prelude.{◌≡◌, ◌↔◌, ℕ, List, Ok, Err};
ghost use Rattle.std.specs.List.{AllByRecursion};
ghost use Rattle.serde_json.specs.Data.{Data};
ghost use Rattle.channel_book.specs.declared.faults.BookFault.{BookFault};
ghost use Rattle.channel_book.specs.Shapes.{Declared, shape_in};
ghost use Rattle.channel_book.specs.Books.{book_of};
ghost use Rattle.channel_book_laws.specs.Books.{IsBook};
ghost use Rattle.channel_book_laws.specs.Texts.{IsBookText, IsFaultOf};
ghost use Rattle.channel_book_laws.specs.Walk.{IsMet, IsFirstBreak, book_places};

/// A JSON value is read as a book exactly where the table has it so, and what is read is what the table says.
pub fn shapes_are_books()
    ensures { (d : Data) (book : Declared) → (shape_in d ≡ Ok book) ↔ IsBook d book }
{}

/// Any other value has a fault, whose path leads to the first place of the walk that breaks the table: the value there is not what the table says, and at each place
/// before it the value is.
pub fn faults_name_the_first_place()
    ensures fault { (d : Data) (path : List ℕ) → (shape_in d ≡ Err path) ↔ IsFirstBreak (book_places d) path }

    // A book is a value of which each place is what the table says.
    ensures book { (d : Data) → ((book : Declared) × IsBook d book) ↔ AllByRecursion IsMet (book_places d) }
{}

/// The texts that are read as a book are exactly those of books, and each other text has exactly the fault that comes first: the JSON, the shape, a template that is
/// reserved, a name that stood before.
pub fn books_are_read()
    ensures book { (text : List ℕ) (book : Declared) → (book_of text ≡ Ok book) ↔ IsBookText text book }
    ensures fault { (text : List ℕ) (e : BookFault) → (book_of text ≡ Err e) ↔ IsFaultOf text e }
{}
