//! The configuration and the book of a cluster.

use std::marker::Brand;

/// Names the configuration, and the book, of all values behind the locks of a cluster. Contracts know of a locked
/// value only its type. The name stands in contracts alone; a program picks it by passing [`Brand`].
pub trait Naming {
    ghost use Rattle.protocol.specs.System.Configuration.{Configuration};
    ghost use Rattle.logbook.specs.Pages.{Book};

    ghost config: { Configuration };

    ghost book: { Book };
}

impl Naming for Brand {
    ghost use Rattle.journal.specs.Parts.{no_configuration};
    ghost use Rattle.journal.specs.Ties.{no_book};

    ghost config = { no_configuration };

    ghost book = { no_book };
}
