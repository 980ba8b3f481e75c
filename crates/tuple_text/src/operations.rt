//! From operations to their lines.

ghost use Rattle.std.specs.Prelude.{◌≡◌, ◌∷◌, ◌++◌, OnOk, OnErr, decimal};
ghost use Rattle.tuple_codec.specs.OperationView.{operation_of};
ghost use Rattle.tuple_text.specs.Written.{template_written, operation_written, WritesText};

use crate::fields::put_list;
use crate::write::{append, put_byte, put_tuple};
use itoa::Buffer;
use std::alloc::Allocator;
use terms::NoMemory;
use tuple_codec::{Max, Op};
use tuple_tree::Template;

/// Appends the line of the operation: its name, and a blank before each argument. An `Err` leaves the bytes as they
/// were.
pub fn write_op<A: Allocator, B: Allocator>(
    op: &Op<A>,
    out: &mut Vec<u8, B>,
) -> Result<(), NoMemory>
    ensures ok { OnOk result (out.new.items ≡ out.old.items ++ operation_written (operation_of op.now)) }
    ensures err { OnErr result (out.new.items ≡ out.old.items) }
{
    let old_len = out.len();
    match put_op(op, out) {
        Ok(()) => Ok(()),
        Err(error) => {
            out.truncate(old_len);
            Err(error)
        }
    }
}

fn put_op<A: Allocator, B: Allocator>(op: &Op<A>, out: &mut Vec<u8, B>) -> Result<(), NoMemory>
    ensures { WritesText result out.old.items (operation_written (operation_of op.now)) out.new.items }
{
    match op {
        Op::Out(tuple) => {
            append(b"out ", out)?;
            put_tuple(tuple, out)
        }
        Op::Rdp(template) => {
            append(b"rdp ", out)?;
            put_template(template, out)
        }
        Op::Inp(template) => {
            append(b"inp ", out)?;
            put_template(template, out)
        }
        Op::Cas(template, tuple) => {
            append(b"cas ", out)?;
            put_template(template, out)?;
            put_byte(b' ', out)?;
            put_tuple(tuple, out)
        }
        Op::RdAll(max, template) => {
            append(b"rdAll ", out)?;
            put_counted(*max, template, out)
        }
        Op::InAll(max, template) => {
            append(b"inAll ", out)?;
            put_counted(*max, template, out)
        }
        Op::Upgrade => append(b"upgrade", out),
    }
}

// How many tuples, a blank, and the template.
fn put_counted<A: Allocator, B: Allocator>(
    max: Max,
    template: &Template<A>,
    out: &mut Vec<u8, B>,
) -> Result<(), NoMemory>
    ensures { WritesText result out.old.items (decimal max.count ++ 32 ∷ template_written template.now) out.new.items }
{
    put_count(max, out)?;
    put_byte(b' ', out)?;
    put_template(template, out)
}

fn put_count<B: Allocator>(max: Max, out: &mut Vec<u8, B>) -> Result<(), NoMemory>
    ensures { WritesText result out.old.items (decimal max.count) out.new.items }
{
    let mut buffer = Buffer::new();
    append(buffer.format(max.count).as_bytes(), out)
}

fn put_template<A: Allocator, B: Allocator>(
    template: &Template<A>,
    out: &mut Vec<u8, B>,
) -> Result<(), NoMemory>
    ensures { WritesText result out.old.items (template_written template.now) out.new.items }
{
    let _rest = put_list(template.len() as u8, template.bytes(), 7, out)?;
    Ok(())
}
