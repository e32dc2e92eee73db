//! The messages of a file in pieces, where they stand in a piece.

ghost use Rattle.std.specs.Prelude.{◌^◌, ◌<◌, ◌≤◌};

use crate::next::{Next, next_message};
use crate::place::Place;
use crate::whole::gap_len;

/// Cuts a file that comes in pieces, each of which begins with what was left of the one before. It copies nothing, and takes no
/// memory.
#[derive(Clone, Copy, Debug)]
pub struct PieceCutter {
    /// Whether no `$` may come.
    pub(crate) marked: bool,
    /// Whether the next message doesn't follow the last one directly.
    pub(crate) apart: bool,
    pub(crate) fed: u64,
    pub(crate) begun: u32,
    ghost counted: { begun ≤ fed },
    ghost few: { fed < 2 ^ 32 },
}

impl PieceCutter {
    ghost use Rattle.std.specs.Prelude.{◌≡◌, ◌+◌, ◌^◌, ◌<◌, ◌≤◌, ◌++◌, ◌∷◌, [], ℕ, List, length, take, drop, true, false, None, IfSome, vec_capacity};
    ghost use Rattle.std.specs.List.{All};
    ghost use Rattle.fin_frame.specs.File.{IsMessage};
    ghost use Rattle.fin_frame.specs.Pieces.{at_places, HasAll, HasTakenFile, IsFaulty, IsPlaceIn};
    ghost use Rattle.fin_frame.specs.Whole.{is_led};
    ghost use Rattle.fin_frame.specs.inner.Whole.{gap_goes_on};

    /// A cutter that has taken nothing yet.
    pub fn new() -> PieceCutter
        ensures made { HasTakenFile result [] [] }
        ensures fresh { (result.fed ≡ 0) × (result.apart ≡ true) }
    {
        PieceCutter {
            marked: true,
            apart: true,
            fed: 0,
            begun: 0,
        }
    }

    /// Cuts the next piece of the file: puts the places of its messages, `most` of them at most, into `places`, and answers how
    /// many bytes it took. The next piece begins with the others. Where fewer messages were found, they are all those that the
    /// bytes show to be whole; where the piece is the last one, those that the file still has.
    ///
    /// None where the bytes show a fault, or are the last ones and end within a group: no byte was taken then, and what
    /// `places` has means nothing. The bytes of a file are fewer than 2^32.
    pub fn cut_piece(
        &mut self,
        piece: &[u8],
        last: bool,
        most: usize,
        places: &mut Vec<Place>,
    ) -> Option<usize>
        requires few { self.old.fed + length piece.now < 2 ^ 32 }
        // Where a message came directly before, the piece begins with the `{1:` that showed it to be whole.
        requires led { self.old.apart ≡ false → is_led piece.now ≡ true }
        requires empty { places.old.items ≡ [] }
        requires room { most ≤ vec_capacity places.old }
        ensures few { IfSome result (λ n. (n ≤ length piece.now) × (self.new.fed ≡ self.old.fed + n) × (length places.new.items ≤ most)) }
        ensures took { (file : List ℕ) (messages : List (List ℕ)) → HasTakenFile self.old file messages →
            IfSome result (λ n. HasTakenFile self.new (file ++ take n piece.now) (messages ++ at_places piece.now places.new.items)) }
        ensures all { (file : List ℕ) (messages : List (List ℕ)) → HasTakenFile self.old file messages →
            IfSome result (λ n. length places.new.items < most → HasAll last file messages piece.now places.new.items n) }
        ensures room { vec_capacity places.new ≡ vec_capacity places.old }
        ensures within { IfSome result (λ _. All (λ place. IsPlaceIn (length piece.now) place) places.new.items) }
        ensures led { IfSome result (λ n. last ≡ false → self.new.apart ≡ false → is_led (drop n piece.now) ≡ true) }
        ensures none { result ≡ None → (file : List ℕ) (messages : List (List ℕ)) → HasTakenFile self.old file messages →
            IsFaulty last (file ++ piece.now) }
        ensures kept { result ≡ None → self.new ≡ self.old }
    {
        let mut cutter = *self;
        let mut at = cutter.pass_gap(piece);
        while at < piece.len() && places.len() < most {
            match next_message(&piece[at..], last) {
                Next::Message(len) => {
                    places.push_reserved(Place {
                        from: at as u32,
                        len: len as u32,
                    });
                    at += len;
                    cutter.pass_message(len);
                    at += cutter.pass_gap(&piece[at..]);
                }
                Next::Open => {
                    *self = cutter;
                    return Some(at);
                }
                Next::Faulty => return None,
            }
        }
        *self = cutter;
        Some(at)
    }

    /// Takes the gap in front of the bytes, and says how many it has.
    fn pass_gap(&mut self, bytes: &[u8]) -> usize
        requires few { self.old.fed + length bytes.now < 2 ^ 32 }
        ensures most { result ≤ length bytes.now }
        ensures fed { self.new.fed ≡ self.old.fed + result }
        ensures end { gap_goes_on self.new.marked (drop result bytes.now) ≡ false }
        ensures apart { self.new.apart ≡ false → (self.old.apart ≡ false) × (result ≡ 0) × (self.new.marked ≡ self.old.marked) }
        ensures took { (file : List ℕ) (messages : List (List ℕ)) → HasTakenFile self.old file messages →
            HasTakenFile self.new (file ++ take result bytes.now) messages }
    {
        let (len, marked) = gap_len(bytes, self.marked);
        self.marked = marked;
        self.apart = self.apart || len > 0;
        self.fed += len as u64;
        len
    }

    /// Takes a message of so many bytes.
    fn pass_message(&mut self, len: usize)
        requires some { 0 < len }
        requires few { self.old.fed + len < 2 ^ 32 }
        ensures fed { self.new.fed ≡ self.old.fed + len }
        ensures marked { self.new.marked ≡ false }
        ensures took { (file message : List ℕ) (messages : List (List ℕ)) → HasTakenFile self.old file messages →
            IsMessage message → length message ≡ len → HasTakenFile self.new (file ++ message) (messages ++ message ∷ []) }
    {
        self.marked = false;
        self.apart = false;
        self.fed += len as u64;
        self.begun += 1;
    }
}
