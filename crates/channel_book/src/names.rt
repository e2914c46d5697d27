ghost use Rattle.std.specs.Prelude.{◌≡◌, List, ℕ, [], take, find, option_map, option_copied, slice_get, IfOk};
ghost use Rattle.std.specs.List.{list_any};
ghost use Rattle.channel_book.specs.Names.{is_named, first_repeat, IsIndex};

use cable_base::{Listed, OutOfMemory, Text};
use std::alloc::Global;
use std::collections::HashMap;
use std::marker::Model;

/// What has a name.
pub trait Named {
    ghost name_of: { Self → List ℕ };

    fn name(&self) -> &str
        ensures { result.now ≡ name_of self.now };
}

impl Named for Text {
    ghost name_of = { λ t. t };

    fn name(&self) -> &str {
        self.as_str()
    }
}

/// Items in the order in which they were declared, seen as their list. The first item of a name is found by one look-up.
#[derive(Debug, Drop)]
pub struct Indexed<T: Named> {
    items: Listed<T>,
    places: HashMap<String, usize>,
}

impl<T: Named> Model for Indexed<T> {
    ghost use Rattle.std.specs.Prelude.{List};
    ghost use Rattle.std.specs.Coded.{coded_list};
    ghost use Rattle.channel_book.specs.Names.{IsIndex};

    ghost Value = { List T };

    ghost coded = { coded_list T.code };

    ghost view = { λ a. a.items };

    ghost invariant = { λ a. IsIndex T.name_of a.places a.items };
}

/// The first place of each name.
fn places_of<T: Named>(alloc: Global, items: &[T]) -> Result<HashMap<String, usize>, OutOfMemory>
    ensures { IfOk result (λ places. IsIndex T.name_of places items.now) }
{
    let mut places = HashMap::new(alloc);
    for (i, item) in items.iter().enumerate() {
        if !places.contains_key(item.name()) {
            places.insert(String::from_str(alloc, item.name())?, i)?;
        }
    }
    Ok(places)
}

fn item_at<T>(items: &[T], place: usize) -> Option<&T>
    ensures { option_copied result ≡ slice_get items.now place }
{
    items.get(place)
}

impl<T: Named + Drop> Indexed<T> {
    /// These items, with an index over their names. A name may stand twice.
    pub fn of(alloc: Global, items: Listed<T>) -> Result<Indexed<T>, OutOfMemory>
        ensures { IfOk result (λ a. a ≡ items) }
    {
        let places = places_of(alloc, items.as_slice())?;
        Ok(Indexed { items, places })
    }

    /// The items, in order.
    pub fn as_slice(&self) -> &[T]
        ensures { result.now ≡ self.now }
    {
        self.items.as_slice()
    }

    /// The first item of a name.
    pub fn get(&self, name: &str) -> Option<&T>
        ensures { option_copied result ≡ find (is_named T.name_of name.now) self.now }
    {
        match self.places.get(name) {
            Some(place) => item_at(self.items.as_slice(), *place),
            None => None,
        }
    }

    /// An item has this name.
    pub fn contains(&self, name: &str) -> bool
        ensures { result ≡ list_any (is_named T.name_of name.now) self.now }
    {
        self.places.contains_key(name)
    }

    /// An item before this place has this name.
    pub fn stood_before(&self, name: &str, place: usize) -> bool
        ensures { result ≡ list_any (is_named T.name_of name.now) (take place self.now) }
    {
        match self.places.get(name) {
            Some(first) => *first < place,
            None => false,
        }
    }

    /// The first name that stood before.
    pub fn first_repeat(&self) -> Option<&str>
        ensures { option_map (λ s. s.now) result ≡ first_repeat T.name_of [] self.now }
    {
        for (i, item) in self.items.as_slice().iter().enumerate() {
            if self.stood_before(item.name(), i) {
                return Some(item.name());
            }
        }
        None
    }
}
