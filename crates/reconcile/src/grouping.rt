//! The pages that were received, put together as statements.

ghost use Rattle.std.specs.Prelude.{◌≡◌, ◌∷◌, [], ◌++◌, All, IfOk, List, OnOk, Some, ℕ, cond};
ghost use Rattle.std.specs.Str.{bytes_eq};
ghost use Rattle.fin_contents.specs.Writing.{IsReadable};
ghost use Rattle.mt950.specs.Page.{mt950_of};
ghost use Rattle.mt950.specs.declared.page.Page950.{Page950 as PageOf};
ghost use Rattle.reconcile.specs.inner.Gathering.{Gathers, open_at, place_after, place_for_page, room_in};
ghost use Rattle.reconcile.specs.Pieces.{pieces_of};

use crate::key::short;
use corr_text::{List, Memory};
use indexmap::IndexMap;
use mt950::Page950;
use std::alloc::Global;

/// The pieces so far, and of each account whose last page so far closes no statement the place of the piece that it belongs to.
#[derive(Drop)]
struct Gathered {
    pieces: Vec<List<Page950>>,
    places: IndexMap<[u8; 36], usize>,
}

impl Gathered {
    /// The place of the piece that the next page of an account belongs to: the open one, or a new one at the end.
    fn place_for(&mut self, alloc: Global, account: &[u8; 36]) -> Result<usize, Memory>
        ensures place { IfOk result (λ at. at ≡ place_for_page (open_at self.old account.now) self.old.pieces.items) }
        ensures room { OnOk result (self.new.pieces.items ≡ room_in (open_at self.old account.now) self.old.pieces.items) }
        ensures noted { self.new.places ≡ self.old.places }
    {
        if let Some(at) = self.places.get(account) {
            return Ok(*at);
        }
        self.pieces.push(List::new(alloc))?;
        Ok(self.pieces.len() - 1)
    }

    /// Notes where the next page of an account belongs, once a page stands at a place: there, or nowhere yet where it is the last.
    fn note(&mut self, account: [u8; 36], at: usize, last: bool) -> Result<(), Memory>
        ensures noted { OnOk result ((other : List ℕ) → open_at self.new other ≡ cond (bytes_eq account other) (place_after last at) (open_at self.old other)) }
        ensures pieces { self.new.pieces ≡ self.old.pieces }
    {
        if last {
            self.places.swap_remove(&account);
        } else {
            self.places.insert(account, at)?;
        }
        Ok(())
    }

    /// One page more.
    fn add(&mut self, alloc: Global, page: Page950) -> Result<(), Memory>
        requires so_far { (front : List PageOf) × Gathers front self.old }
        requires given { IsReadable mt950_of page }
        ensures { OnOk result ((front : List PageOf) → Gathers front self.old → Gathers (front ++ page ∷ []) self.new) }
    {
        let account = short(page.account.bytes());
        let at = self.place_for(alloc, &account)?;
        self.note(account, at, page.closing.last)?;
        self.pieces[at].push(page)
    }
}

/// The pages of each account, in their order, up to and with the first that closes a statement (62F), and so on with those after it;
/// in the order of their first pages. The last pages of an account may lack such a closing.
///
/// Each page is one that `read_mt950` gives.
pub fn pieces(alloc: Global, pages: Vec<Page950>) -> Result<Vec<List<Page950>>, Memory>
    requires { All (IsReadable mt950_of) pages.items }
    ensures { IfOk result (λ pieces. pieces.items ≡ pieces_of pages.items) }
{
    let mut gathered = Gathered {
        pieces: Vec::new(alloc),
        places: IndexMap::new(alloc),
    };
    for page in pages {
        gathered.add(alloc, page)?;
    }
    Ok(gathered.pieces)
}
