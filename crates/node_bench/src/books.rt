use crate::stops::Stop;
use channel_book::Book;
use std::alloc::{AllocError, Global};

/// Puts the token of the user of this number.
fn put_token(alloc: Global, text: &mut String, number: u64) -> Result<(), AllocError> {
    let token = format!(in alloc; "\"t{number}\":\"u{number}\"")?;
    if number > 1 {
        text.push_str(",")?;
    }
    text.push_str(token.as_str())
}

/// The text of a book with a token for each of so many users, `t1` and so on, and with the channel of the rooms.
fn book_text(alloc: Global, users: u64) -> Result<String, AllocError> {
    let mut text = String::from_str(alloc, "{\"tokens\":{")?;
    for number in 1..=users {
        put_token(alloc, &mut text, number)?;
    }
    text.push_str(
        "},\"channels\":[{\"name\":\"Chat\",\"requires\":[\"room\"],\"streams\":[\"room_{room}\"]}]}",
    )?;
    Ok(text)
}

/// A book with a token for each of so many users.
pub fn book(alloc: Global, users: u64) -> Result<Book, Stop> {
    let text = book_text(alloc, users)?;
    match Book::read(alloc, text.as_str()) {
        Ok(book) => Ok(book),
        Err(_) => Err(Stop::Refused),
    }
}
