//! The checks of statements: the first fault of each, or what it says.

ghost use Rattle.std.specs.Prelude.{◌≡◌, false, ⊤, ◌&&◌, nat_lt, IsTrue, [], ◌∷◌};
ghost use Rattle.frame_ast.specs.declared.kernel.FaultKind.TheVariants.{Limit};
ghost use Rattle.frame_ast.specs.Lists.{first_some};
ghost use Rattle.script_text.specs.Raw.{form_of, Repeat, When};
ghost use Rattle.kernel_text.specs.Tokens.{kinds};
ghost use Rattle.script_text.specs.Sources.{file_tokens, number_at};
ghost use Rattle.script_text.specs.Places.{TestStands};
ghost use Rattle.script_names.specs.Names.{Name};
ghost use Rattle.script_checks.specs.Faults.{unless, order_faults, limit_fault};
ghost use Rattle.script_checks.specs.Checks.{Checked, among, is_plain, Gives, Decides};

mod changes;
mod jobs;
mod known;
mod makes;

use crate::checks::{number_within, refuse, resolve, signed_number};
use crate::{Kernels, OrderFault};
use frame_ast::kernel::FaultKind;
use frame_ast::name_kind::NameKind;
use frame_ast::script::Order;
use frame_grammar::TokenAt;
use job_base::limits::{MOST_BLOCKS, MOST_REPEATS};
use jobs::{Schedule, check_schedule};
pub use known::check_known;
pub use makes::{Valued, valued_array};
use script_names::Names;
use script_text::{RawNumber, RawOrder, Source};
use std::alloc::Global;

// TO ADD A STATEMENT: 9, its checks.

/// The check of a statement that has no block and no list of values.
pub fn check_order(
    alloc: Global,
    source: Source<'_>,
    names: &Names<'_>,
    kernels: &Kernels<'_>,
    raw: &RawOrder<'_>,
) -> Result<Order, OrderFault>
    requires plain { IsTrue (is_plain raw.now) }
    ensures { Checked source.entry (among names.now kernels.now) 0 0 (form_of raw.now) result }
{
    match raw {
        RawOrder::Array {
            name,
            len,
            life,
            values: None,
        } => makes::array(source, names, *name, *len, *life),
        RawOrder::Array {
            values: Some(_),
            ..
        } => unreachable!(),
        RawOrder::Column { name, column, life } => {
            makes::column(alloc, source, names, *name, *column, *life)
        }
        RawOrder::List { name, cap, life } => makes::list(source, names, *name, *cap, *life),
        RawOrder::Reference { name, life, value } => {
            makes::reference(source, names, *name, *life, *value)
        }
        RawOrder::Map { name, cap, life } => makes::map(source, names, *name, *cap, *life),
        RawOrder::Stream {
            name,
            count,
            room,
            life,
        } => makes::stream(source, names, *name, *count, *room, *life),
        RawOrder::Slice {
            name,
            of,
            start,
            len,
        } => makes::slice(source, names, *name, *of, *start, *len),
        RawOrder::View { name, of } => makes::view(source, names, *name, *of),
        RawOrder::Copy { name, of } => makes::copy(source, names, *name, *of),
        RawOrder::Set { name, at, value } => changes::set(source, names, *name, *at, *value),
        RawOrder::Add {
            name,
            first,
            second,
        } => changes::add(source, names, *name, *first, *second),
        RawOrder::Put { name, key, value } => changes::put(source, names, *name, *key, *value),
        RawOrder::Remove { name, at } => changes::remove(source, names, *name, *at),
        RawOrder::Clear { name } => changes::clear(source, names, *name),
        RawOrder::SetCapacity { name, cap } => changes::set_capacity(source, names, *name, *cap),
        RawOrder::Schedule {
            auto,
            handle,
            kernel,
            args,
            sizes,
            waive,
            after,
        } => {
            let text = Schedule {
                auto: *auto,
                handle: *handle,
                kernel: *kernel,
                args: args.as_slice(),
                sizes: *sizes,
                waive: waive.as_slice(),
                after: after.as_slice(),
            };
            check_schedule(alloc, source, names, kernels, &text)
        }
        RawOrder::Combine { name, of } => {
            makes::combine(alloc, source, names, *name, of.as_slice())
        }
        RawOrder::Complete { auto, name } => {
            changes::complete_either(source, names, *auto, *name)
        }
        RawOrder::Dispose {
            name,
            after,
            handle,
        } => changes::dispose(alloc, source, names, *name, after.as_slice(), *handle),
        RawOrder::DisposeAuto { name, handle } => {
            changes::dispose_auto(source, names, *name, *handle)
        }
        RawOrder::Print { name } => changes::print(source, names, *name),
        RawOrder::Flush => Ok(Order::Flush),
        RawOrder::Frame => Ok(Order::Frame),
        RawOrder::Repeat { .. } => unreachable!(),
        RawOrder::When { .. } => unreachable!(),
    }
}

// A block stands in at most so many others, and no `when` in another.
fn check_depth(blocks: u32, allowed: bool, at: TokenAt) -> Result<(), OrderFault>
    ensures { Decides (unless (nat_lt blocks MOST_BLOCKS && allowed) Limit at) (λ _. ⊤) result }
{
    if blocks < MOST_BLOCKS && allowed {
        Ok(())
    } else {
        refuse(FaultKind::Limit, at)
    }
}

/// The count of a `repeat` that stands in so many blocks and begins at a place.
pub fn check_repeat(
    source: Source<'_>,
    blocks: u32,
    at: TokenAt,
    count: TokenAt,
) -> Result<u32, OrderFault>
    ensures { Gives (first_some (order_faults source.entry
        (record { names = []; kernels = []; blocks = blocks; tested = false }) at (Repeat count)))
        (λ n. n ≡ number_at source.entry count) result }
{
    check_depth(blocks, true, at)?;
    let count = number_within(source, 1, MOST_REPEATS, count)?;
    Ok(count)
}

/// What a `when` compares, by the places of its tokens.
#[derive(Clone, Copy)]
pub struct Comparison {
    /// A reference.
    pub name: TokenAt,
    pub sign: TokenAt,
    pub value: RawNumber,
}

/// A `when` that stands in so many blocks, in the block of another or not, and begins at a place.
/// The number of the statements of its block isn't known yet, and is 0.
pub fn check_when(
    source: Source<'_>,
    names: &Names<'_>,
    blocks: u32,
    tested: bool,
    at: TokenAt,
    test: Comparison,
) -> Result<Order, OrderFault>
    requires { TestStands (kinds (file_tokens source)) test.sign }
    ensures { Checked source.entry (record { names = names.now; kernels = []; blocks = blocks; tested = tested }) 0 at
        (When test.name test.sign test.value) result }
{
    check_depth(blocks, !tested, at)?;
    let name = resolve(source, names, &[NameKind::Reference], test.name)?;
    let value = signed_number(source, test.value)?;
    Ok(Order::When {
        name,
        sign: source.sign(test.sign),
        value,
        count: 0,
    })
}
