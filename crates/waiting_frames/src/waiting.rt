//! The list of waiting frames.

ghost use Rattle.std.specs.Prelude.{◌≡◌, ◌<◌, ◌≤◌, ◌+◌, [], true, not, length, drop, remove, slice_get, option_map, OnOk};
ghost use Rattle.indexmap.specs.IndexSet.{spare};
ghost use Rattle.waiting_frames.specs.Waiting.{is_waiting, joined, waits_once};

use indexmap::IndexSet;
use net_base::ByteList;
use std::alloc::{AllocError, Global};
use std::marker::Model;

/// The frames that wait at a node of a network, as bytes. Contracts see them in the order in which they came, and for how
/// many more there is room. No two of them are equal.
#[derive(Drop)]
pub struct Waiting {
    // Before those that wait stand those that were discarded, this number.
    frames: IndexSet<Vec<u8>>,
    gone: usize,
}

impl Model for Waiting {
    ghost use Rattle.std.specs.Prelude.{◌≡◌, ◌≤◌, true, map, drop, length};
    ghost use Rattle.indexmap.specs.IndexSet.{spare};
    ghost use Rattle.waiting_frames.specs.Waiting.{WaitingSeen, waits_once};

    ghost Value = { WaitingSeen };

    ghost view = { λ w. record {
      frames = map (λ f. f.items) (drop w.gone w.frames.keys);
      room = spare w.frames;
    } };

    ghost invariant = { λ w. (w.gone ≤ length w.frames.keys)
        × (waits_once (map (λ f. f.items) (drop w.gone w.frames.keys)) ≡ true) };
}

impl Waiting {
    /// No frames. Takes no memory.
    pub fn new(alloc: Global) -> Waiting
        ensures frames { result.frames ≡ [] }
    {
        Waiting {
            frames: IndexSet::new(alloc),
            gone: 0,
        }
    }

    /// Makes room for `more` frames beyond those that wait. The only error is want of memory, which leaves the frames as
    /// they were.
    pub fn make_room(&mut self, more: usize) -> Result<(), AllocError>
        ensures frames { self.new.frames ≡ self.old.frames }
        ensures room { OnOk result (more ≤ self.new.room) }
        ensures keeps { self.old.room ≤ self.new.room }
    {
        self.frames.reserve(more)
    }

    /// How many frames wait.
    pub fn len(&self) -> usize
        ensures { result ≡ length self.now.frames }
    {
        self.frames.len() - self.gone
    }

    /// The frame at a place, counted from 0.
    pub fn get(&self, place: usize) -> Option<&[u8]>
        ensures { option_map (λ f. f.now) result ≡ slice_get self.now.frames place }
    {
        if place >= self.frames.len() - self.gone {
            return None;
        }
        match self.frames.get_index(self.gone + place) {
            Some(frame) => Some(frame.as_slice()),
            None => None,
        }
    }

    /// Adds a frame at the end, unless equal bytes wait, and says whether it was added. There is room, so it takes no
    /// memory. Equal bytes are found by their hash, without a scan of the frames.
    pub fn join(&mut self, frame: ByteList) -> bool
        requires { 0 < self.old.room }
        ensures frames { self.new.frames ≡ joined frame self.old.frames }
        ensures added { result ≡ not (is_waiting frame self.old.frames) }
        ensures room { self.old.room ≤ self.new.room + 1 }
    {
        compact(&mut self.frames, &mut self.gone);
        self.frames.insert(frame.into_vec()).unwrap()
    }

    /// Takes the frame at a place out, counted from 0; the others keep their order. The number of steps is at most that of
    /// the frames.
    pub fn remove(&mut self, place: usize) -> Option<ByteList>
        ensures frame { result ≡ slice_get self.old.frames place }
        ensures frames { self.new.frames ≡ remove self.old.frames place }
        ensures room { self.old.room ≤ self.new.room }
    {
        compact(&mut self.frames, &mut self.gone);
        match self.frames.shift_remove_index(place) {
            Some(frame) => Some(ByteList::from_vec(frame)),
            None => None,
        }
    }

    /// Discards the frame at a place, counted from 0, if there is one; the others keep their order. The first one takes one step:
    /// its memory is given back when the next frame joins. For any other the number of steps is at most that of the frames.
    pub fn discard(&mut self, place: usize)
        ensures frames { self.new.frames ≡ remove self.old.frames place }
        ensures room { self.old.room ≤ self.new.room }
    {
        if place > 0 {
            let _ = self.remove(place);
        } else if self.gone < self.frames.len() {
            self.gone += 1;
        }
    }

    /// The law of waiting frames, which takes no work: no two of them are equal.
    pub fn law_holds_each_once(&self)
        ensures { waits_once self.now.frames ≡ true }
    {
        let _ = &self.frames;
    }
}

/// Takes the first frames out, as many as were discarded, at once.
fn compact(frames: &mut IndexSet<Vec<u8>>, gone: &mut usize)
    requires { gone.old ≤ length frames.old.keys }
    ensures frames { frames.new.keys ≡ drop gone.old frames.old.keys }
    ensures gone { gone.new ≡ 0 }
    ensures room { spare frames.old ≤ spare frames.new }
{
    if *gone > 0 {
        drop(frames.drain(..*gone));
        *gone = 0;
    }
}
