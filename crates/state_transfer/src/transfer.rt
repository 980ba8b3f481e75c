//! The transfer.

ghost use Rattle.std.specs.Prelude.{◌≡◌, ◌≢◌, ◌↔◌, ◌<◌, Some, None, IfOk, IfErr, IfNone, IfSome, IsTrue, OnOk, OnErr, length, option_copied, slice_index_or};
ghost use Rattle.sha2.specs.Sha256.{sha256};
ghost use Rattle.partition_tree.specs.Digests.{digest_of_children, root_of};
ghost use Rattle.state_transfer.specs.Determining.{AreThePagesOf};
ghost use Rattle.state_transfer.specs.Places.{IsPlace, page_place};
ghost use Rattle.state_transfer.specs.Seeking.{IsFirstMissing};
ghost use Rattle.state_transfer.specs.Taking.{IsAskedLast, DigestIsKnown, IsMetaAsked, RefusesMeta, RefusesPage};
ghost use Rattle.state_transfer.specs.Transfer as spec;
ghost use Rattle.state_transfer.specs.Transfer.{wanted, RestsOn};

use crate::differences::first_difference;
use crate::missing::Missing;
use crate::part_fault::PartFault;
use crate::place::Place;
use crate::replaced::Replaced;
use partition_tree::{CHILDREN, PAGES, Tree, digest, digest_of_children};
use std::alloc::Global;
use std::marker::Model;
use std::mem;
use terms::{Digest, Level, NoMemory, Number};

/// The transfer of the state with this number and root to a replica that lags. It asks for one place at a time.
///
/// It holds the replica's own pages, with the fetched ones in their places. It shares the texts of the pages that it
/// was started with, and has at most 1,024 texts of its own. From the start it has room for 33 times 1,024 bytes of
/// digests.
#[derive(Drop)]
pub struct Transfer {
    number: Number,
    root: Digest,
    held: Tree,
    fetched: Vec<bool>,
    part_digests: Option<[Digest; CHILDREN]>,
    page_digests: Vec<Option<[Digest; CHILDREN]>>,
    asked: Place,
    // The digest that is wanted at the place asked for.
    wanted: Digest,
}

impl Model for Transfer {
    ghost use Rattle.state_transfer.specs.Transfer.{TransferData};

    ghost Value = { TransferData };

    ghost use Rattle.state_transfer.specs.Keeping.{IsTransfer};
    ghost use Rattle.state_transfer.specs.TransferView.{transfer_data};

    ghost view = { transfer_data };

    ghost invariant = { λ t. IsTransfer (transfer_data t) t.wanted };
}

impl Transfer {
    /// A transfer of the state of this number and root to a replica with these pages. It asks for the root's children.
    #[tactic(auto, unfolding(crate::specs::Transfer::none_fetched, crate::specs::Transfer::none_told))]
    pub fn start(
        alloc: Global,
        number: Number,
        root: Digest,
        pages: &Tree,
    ) -> Result<Transfer, NoMemory>
        ensures { IfOk result (λ t. t ≡ spec.new_transfer number.0 root pages.now) }
    {
        // Tells a proof that there are 1,024 pages.
        let _first = pages.page(0);
        let held = pages.copy()?;
        let fetched = Vec::from_slice(alloc, &[false; PAGES])?;
        let page_digests = Vec::from_slice(alloc, &[None; CHILDREN])?;
        Ok(Transfer {
            number,
            root,
            held,
            fetched,
            part_digests: None,
            page_digests,
            asked: Place::root(),
            wanted: root,
        })
    }

    /// The number of the wanted state.
    pub fn number(&self) -> Number
        ensures { result.0 ≡ self.now.number }
    {
        self.number
    }

    /// The root of the wanted state.
    pub fn root(&self) -> Digest
        ensures { result ≡ self.now.root }
    {
        self.root
    }

    /// The place asked for last.
    pub fn asked(&self) -> Place
        ensures value { result ≡ self.now.asked }
        ensures range { IsPlace result }
    {
        self.asked
    }

    /// The held pages.
    pub fn pages(&self) -> &Tree
        ensures { result.now ≡ self.now.held }
    {
        &self.held
    }

    /// The pages of the wanted state if the held pages have its root, or `None` while a place is missing. No other
    /// pages have this root, unless texts over these and over those collide.
    pub fn finish(&self) -> Option<&Tree>
        ensures pages { IfSome result (λ pages. pages.now ≡ self.now.held) }
        ensures root { IfSome result (λ pages. root_of pages.now ≡ self.now.root) }
        ensures only { IfSome result (λ pages. AreThePagesOf self.now.root pages.now) }
        ensures missing { IfNone result (root_of self.now.held ≢ self.now.root) }
    {
        if self.held.root() != self.root {
            return None;
        }
        Some(&self.held)
    }

    /// Tells a proof the invariants of each transfer. It does nothing.
    pub fn keeps(&self)
        ensures pages { length self.now.held ≡ PAGES }
        ensures fetched { length self.now.fetched ≡ PAGES }
        ensures place { IsPlace self.now.asked }
        ensures wanted { DigestIsKnown self.now }
    {
        let _number = &self.number;
    }

    /// Goes on with a newer state. Asks for the root's children again; keeps fetched pages, and digests of pages that
    /// came.
    pub fn move_to(&mut self, number: Number, root: Digest)
        ensures { self.new ≡ spec.moved_to self.old number.0 root }
    {
        self.number = number;
        self.root = root;
        self.part_digests = None;
        self.asked = Place::root();
        self.wanted = root;
    }

    /// Goes on from other own pages, after the replica's state changed. Compares each text that wasn't fetched, and
    /// hashes those that changed, each with 2,048 bytes of digests. An error leaves the transfer as it was.
    pub fn rest_on(&mut self, pages: &Tree) -> Result<(), NoMemory>
        ensures ok { OnOk result (RestsOn self.old pages.now self.new) }
        ensures err { OnErr result (self.new ≡ self.old) }
    {
        let mut held = self.held.copy()?;
        for page in 0..PAGES {
            if !self.fetched[page] {
                held.set_page(page, pages.page(page))?;
            }
        }
        self.held = held;
        Ok(())
    }

    // The digests wanted for the pages of an inner part, 0 to 31, if those that came have the digest wanted for the
    // part.
    fn pages_of_part(&self, part: usize, wanted: &Digest) -> Option<&[Digest; CHILDREN]>
        requires { part < CHILDREN }
        ensures { option_copied result
            ≡ spec.fitting_children wanted.now (slice_index_or self.now.page_digests part None) }
    {
        match &self.page_digests[part] {
            Some(digests) if digest_of_children(digests) == *wanted => Some(digests),
            _ => None,
        }
    }

    // The first missing place, depth first from the root, and the digest wanted there.
    fn missing(&self) -> Option<Missing>
        ensures none { IfNone result (root_of self.now.held ≡ self.now.root) }
        ensures some { IfSome result (IsFirstMissing self.now) }
    {
        if self.held.root() == self.root {
            return None;
        }
        let Some(parts) = &self.part_digests else {
            return Some(Missing {
                place: Place::root(),
                digest: self.root,
            });
        };
        let part = first_difference(parts, self.held.children(Level::Root, 0))?;
        let Some(pages) = self.pages_of_part(part, &parts[part]) else {
            return Some(Missing {
                place: Place::inner(part),
                digest: parts[part],
            });
        };
        let page = first_difference(pages, self.held.children(Level::Inner, part))?;
        Some(Missing {
            place: Place::page(CHILDREN * part + page),
            digest: pages[page],
        })
    }

    /// The first missing place in depth-first order, which then is the one asked for last, or `None` if the held
    /// pages have the wanted root. Compares at most 65 digests, and hashes at most 1,024 bytes.
    pub fn next_fetch(&mut self) -> Option<Place>
        ensures place { result ≡ spec.next_place self.old }
        ensures range { IfSome result IsPlace }
        ensures asks { self.new ≡ spec.asking result self.old }
        ensures done { (result ≡ None) ↔ (root_of self.old.held ≡ self.old.root) }
    {
        let Missing { place, digest } = self.missing()?;
        self.asked = place;
        self.wanted = digest;
        Some(place)
    }

    // Whether the place of this state is the one asked for last.
    fn is_asked(&self, number: Number, place: Place) -> bool
        ensures { IsTrue result ↔ IsAskedLast self.now number.0 place }
    {
        number.0 == self.number.0 && place == self.asked
    }

    // Whether the digest is the one wanted at the place asked for.
    fn is_wanted(&self, digest: Digest) -> bool
        ensures { IsTrue result ↔ (wanted self.now self.now.asked ≡ Some digest) }
    {
        digest == self.wanted
    }

    /// Takes the digests of the children of the place asked for, the root or an inner part, and hashes them. An error
    /// leaves the transfer as it was. It is the first of [`PartFault::NotAsked`] and [`PartFault::WrongDigest`] that
    /// applies, and never [`PartFault::NoMemory`].
    pub fn on_meta(
        &mut self,
        number: Number,
        place: Place,
        digests: &[Digest; CHILDREN],
    ) -> Result<(), PartFault>
        ensures asked { OnOk result (IsMetaAsked self.old number.0 place) }
        ensures fits { OnOk result (wanted self.old place ≡ Some (digest_of_children digests.now)) }
        ensures ok { OnOk result (self.new ≡ spec.with_digests self.old place digests.now) }
        ensures fault { IfErr result (RefusesMeta self.old number.0 place digests.now) }
        ensures err { OnErr result (self.new ≡ self.old) }
    {
        if place.level == Level::Page || !self.is_asked(number, place) {
            return Err(PartFault::NotAsked);
        }
        if !self.is_wanted(digest_of_children(digests)) {
            return Err(PartFault::WrongDigest);
        }
        if place.level == Level::Root {
            self.part_digests = Some(*digests);
        } else {
            self.page_digests[usize::from(place.index)] = Some(*digests);
        }
        Ok(())
    }

    /// Takes the text of the page asked for, and holds it from then on. [`Transfer::put_back`] undoes that with the
    /// result. An error leaves the transfer as it was, and is the first that applies. Hashes the text; if it is
    /// taken, copies it, and copies and hashes 2,048 bytes of digests.
    pub fn on_page(
        &mut self,
        number: Number,
        index: u16,
        text: &[u8],
    ) -> Result<Replaced, PartFault>
        ensures asked { OnOk result (IsAskedLast self.old number.0 (page_place index)) }
        ensures fits { OnOk result (wanted self.old (page_place index) ≡ Some (sha256 text.now)) }
        ensures ok { OnOk result (self.new ≡ spec.with_page self.old index text.now) }
        ensures replaced { IfOk result (λ replaced. replaced ≡ spec.replaced_at self.old index) }
        ensures fault { IfErr result (RefusesPage self.old number.0 index text.now) }
        ensures err { OnErr result (self.new ≡ self.old) }
    {
        let place = Place {
            level: Level::Page,
            index,
        };
        if !self.is_asked(number, place) {
            return Err(PartFault::NotAsked);
        }
        if !self.is_wanted(digest(text)) {
            return Err(PartFault::WrongDigest);
        }
        let page = usize::from(index);
        let mut held = self.held.copy()?;
        held.set_page(page, text)?;
        let replaced = Replaced {
            index,
            held: mem::replace(&mut self.held, held),
            fetched: self.fetched[page],
        };
        self.fetched[page] = true;
        Ok(replaced)
    }

    /// Forgets a page again, and takes no memory. If nothing was taken since, the transfer is as it was before.
    pub fn put_back(&mut self, replaced: Replaced)
        ensures { self.new ≡ spec.given_back self.old replaced }
    {
        // Tells a proof that there are 1,024 pages.
        let _first = replaced.held.page(0);
        let Replaced {
            index,
            held,
            fetched,
        } = replaced;
        let page = usize::from(index);
        if page < PAGES {
            self.fetched[page] = fetched;
        }
        self.held = held;
    }
}
