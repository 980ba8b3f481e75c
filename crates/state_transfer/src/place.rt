//! Places in the tree over the pages of a state.

ghost use Rattle.std.specs.Prelude.{◌≡◌, ◌↔◌, ◌<◌, IsTrue};
ghost use Rattle.state_transfer.specs.Places as spec;

use terms::Level;

/// A place in the tree over the pages of a state.
#[derive(Clone, Copy, Debug, PartialEq, Eq, Drop)]
pub struct Place {
    pub level: Level,
    /// 0 at the root, 0 to 31 at an inner part and 0 to 1,023 at a page.
    pub index: u16,
}

impl Place {
    /// The root.
    pub fn root() -> Place
        ensures { result ≡ spec.root_place }
    {
        Place {
            level: Level::Root,
            index: 0,
        }
    }

    /// An inner part, 0 to 31.
    pub fn inner(part: usize) -> Place
        requires { part < 32 }
        ensures { result ≡ spec.inner_place part }
    {
        Place {
            level: Level::Inner,
            index: part as u16,
        }
    }

    /// A page, 0 to 1,023.
    pub fn page(page: usize) -> Place
        requires { page < 1024 }
        ensures { result ≡ spec.page_place page }
    {
        Place {
            level: Level::Page,
            index: page as u16,
        }
    }
}
