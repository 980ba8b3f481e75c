//! A lock in a tuple space.
//!
//! A held lock is a tuple, `("lock" NAME HOLDER)`. A client that wants it puts the tuple by one `cas`, unless one of
//! that name is there: so of all clients that ask at once one gets it. The holder lets go by taking its own tuple
//! away.

ghost use Rattle.std.specs.Prelude.{IfOk};
ghost use Rattle.lock_service.specs.Answers.{Swapped, Taken};

use crate::fault::Fault;
use journal::Naming;
use space_node::ClientHandle;
use std::alloc::Global;
use std::sync::Wait;
use tuple_codec::{Answer, Op};
use tuple_tree::{Atom, Field, Template, Tuple, Value};

/// A lock by its name, which is short enough for a tuple of 1,024 bytes.
#[derive(Clone, Copy)]
pub struct Lock<'a> {
    name: &'a str,
}

impl<'a> Lock<'a> {
    /// The lock of this name.
    pub fn new(name: &'a str) -> Lock<'a> {
        Lock { name }
    }

    /// Whether the client got the lock for this holder. Nobody else holds it then, until the holder lets go.
    ///
    /// # Errors
    ///
    /// The call was not answered, the names are too long for a tuple, or memory ran out.
    pub fn acquire<N: Naming, R: Wait>(
        self,
        rt: &R,
        alloc: Global,
        client: &mut ClientHandle<N>,
        holder: &str,
    ) -> Result<bool, Fault>
        ensures { IfOk result (λ got. Swapped client.old got client.new) }
    {
        let op = Op::Cas(self.of_anyone(alloc)?, self.held_by(alloc, holder)?);
        match client.call(rt, alloc, op)? {
            Answer::Swapped(got) => Ok(got),
            _ => Err(Fault::Answer),
        }
    }

    /// Whether this holder had the lock, and let it go.
    ///
    /// # Errors
    ///
    /// As of [`Lock::acquire`].
    pub fn release<N: Naming, R: Wait>(
        self,
        rt: &R,
        alloc: Global,
        client: &mut ClientHandle<N>,
        holder: &str,
    ) -> Result<bool, Fault>
        ensures { IfOk result (λ had. Taken client.old had client.new) }
    {
        let own = template_of(alloc, &["lock", self.name, holder])?;
        let op = Op::Inp(own);
        match client.call(rt, alloc, op)? {
            Answer::Found(_tuple) => Ok(true),
            Answer::Absent => Ok(false),
            _ => Err(Fault::Answer),
        }
    }

    // ("lock" NAME HOLDER)
    fn held_by(self, alloc: Global, holder: &str) -> Result<Tuple<Global>, Fault> {
        let mut tuple = Tuple::new_in(alloc);
        put_values(alloc, &["lock", self.name, holder], &mut tuple)?;
        Ok(tuple)
    }

    // ("lock" NAME *)
    fn of_anyone(self, alloc: Global) -> Result<Template<Global>, Fault> {
        let mut template = template_of(alloc, &["lock", self.name])?;
        template.push(Field::Any)?;
        Ok(template)
    }
}

// The template of these texts.
fn template_of(alloc: Global, words: &[&str]) -> Result<Template<Global>, Fault> {
    let mut template = Template::new_in(alloc);
    put_fields(alloc, words, &mut template)?;
    Ok(template)
}

fn put_values(alloc: Global, words: &[&str], tuple: &mut Tuple<Global>) -> Result<(), Fault> {
    for word in words {
        tuple.push(Value::Atom(text(alloc, word)?))?;
    }
    Ok(())
}

fn put_fields(alloc: Global, words: &[&str], template: &mut Template<Global>) -> Result<(), Fault> {
    for word in words {
        template.push(Field::Actual(text(alloc, word)?))?;
    }
    Ok(())
}

fn text(alloc: Global, word: &str) -> Result<Atom<Global>, Fault> {
    Ok(Atom::Text(String::from_str(alloc, word)?))
}
