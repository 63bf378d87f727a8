//! The pages that current records take.
ghost use Rattle.std.specs.Prelude.{◌≡◌, ◌<◌, ◌≤◌, sum_by};
ghost use Rattle.std.specs.List.{All};
ghost use Rattle.std.specs.Option.{ForSome};
ghost use Rattle.flt_pages.specs.RecordPlace.{pages_found};

use crate::items::byte_pages;
use crate::place::RecordPlace;

/// The pages of the record that was found.
fn pages_at(found: Option<RecordPlace>) -> u16
    requires { ForSome found (λ place. place.length ≤ 128) }
    ensures { result ≡ pages_found found }
{
    match found {
        None => 0,
        Some(place) => 2 + byte_pages(place.length),
    }
}

/// The pages of the current records of all blocks, by the table of their places.
pub fn live_pages(places: &[Option<RecordPlace>]) -> u16
    requires lengths { All (λ found. ForSome found (λ place. place.length ≤ 128)) places.now }
    requires most { sum_by pages_found places.now < 65536 }
    ensures { result ≡ sum_by pages_found places.now }
{
    let mut live = 0;
    for found in places {
        live += pages_at(*found);
    }
    live
}
