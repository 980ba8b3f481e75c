//! A tree of pages, of which one is set while a snapshot shares them.

use crate::left::{Call, Outcome, Tally, assert_right, outcome_of, under_each_size};
use partition_tree::Tree;
use std::alloc::Global;
use std::rt::Files;

const CRUMBS: usize = 256;

const CRUMB: usize = 48;

// Sets the first page to another text each time.
#[derive(Drop)]
struct Sets {
    tree: Tree,
    is_odd: bool,
}

impl Call for Sets {
    fn call(&mut self, _alloc: Global) -> Outcome {
        let before = self.tree.root();
        if sets_beside_a_snapshot(&mut self.tree, &[u8::from(self.is_odd)]) {
            self.is_odd = !self.is_odd;
            outcome_of(self.tree.root() != before, false)
        } else {
            outcome_of(false, self.tree.root() == before)
        }
    }
}

// Whether memory was enough for both.
fn sets_beside_a_snapshot(tree: &mut Tree, text: &[u8]) -> bool {
    match tree.snapshot() {
        Ok(_snapshot) => tree.set_page(0, text).is_ok(),
        Err(_) => false,
    }
}

fn tally_of<R: Files>(rt: &R, alloc: Global) -> Option<Tally> {
    match Tree::new(alloc) {
        Ok(tree) => {
            let mut sets = Sets {
                tree,
                is_odd: false,
            };
            under_each_size(rt, alloc, CRUMBS, CRUMB, &mut sets)
        }
        Err(_) => Tally::unprepared(),
    }
}

#[test]
fn sets_under_each_size(rt: HostRuntime) {
    assert_right(&rt, tally_of(&rt, rt.alloc()));
}
