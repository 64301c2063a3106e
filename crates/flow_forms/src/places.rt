//! The byte of a place.

ghost use Rattle.std.specs.Prelude.{◌≡◌, ◌==◌, ◌&&◌, ◌+◌, find, length};
ghost use Rattle.net_base.specs.Parts.{Gives};
ghost use Rattle.flow_forms.specs.Bytes.{placed, standing, place_at, byte_of};

use crate::begins::Callable;
use crate::forms::At;
use crate::machine::Numbered;
use net_base::{PartFault, Reader, read_u8};

/// The number of the place that waits on Return.
#[tactic(auto, using(crate::specs::Bytes::few_places))]
fn last<P: Numbered>() -> u8
    ensures { result ≡ length P.numbers.all + 1 }
{
    P::all().len() as u8 + 1
}

/// The place of this number.
fn find_place<P: Numbered>(n: u8) -> Option<P>
    ensures { result ≡ find (λ p. P.numbers.number p == n) P.numbers.all }
{
    P::all().iter().copied().find(|place| place.number() == n)
}

/// Whether the byte is that of a frame that is called.
fn is_called<W: Callable>(n: u8) -> bool
    ensures { result ≡ ((n == 255) && W.CALLABLE) }
{
    n == 255 && W::CALLABLE
}

/// Where a frame of this byte stands.
fn standing<P: Numbered, W: Callable>(n: u8) -> Option<At<P>>
    ensures { result ≡ standing (placed W.CALLABLE P.numbers) n }
{
    if n == 0 {
        return Some(At::Failing);
    }
    if n == last::<P>() {
        return Some(At::Returning);
    }
    if is_called::<W>(n) {
        return Some(At::Called);
    }
    match find_place(n) {
        Some(place) => Some(At::Asking(place)),
        None => None,
    }
}

/// Reads the byte of a place.
#[tactic(auto, unfolding(crate::specs::Bytes::place_at))]
pub(crate) fn read_place<P: Numbered, W: Callable>(from: &mut Reader) -> Result<At<P>, PartFault>
    ensures { Gives (λ x. x) result from.old from.new
        (place_at (placed W.CALLABLE P.numbers) from.old.left) }
{
    let left = from.remaining();
    let n = read_u8(from)?;
    match standing::<P, W>(n) {
        Some(at) => Ok(at),
        None => Err(PartFault::Left(left)),
    }
}

/// The byte of a place.
pub(crate) fn place_byte<P: Numbered, W: Callable>(at: &At<P>) -> u8
    ensures { result ≡ byte_of (placed W.CALLABLE P.numbers) at.now }
{
    match at {
        At::Failing => 0,
        At::Returning => last::<P>(),
        At::Called => 255,
        At::Asking(place) => place.number(),
    }
}
