//! Copies of statements.

ghost use Rattle.std.specs.Prelude.{◌≡◌, IsTrue, IfOk, IfSome, false};
ghost use Rattle.frame_ast.specs.Accepted.{is_when};
ghost use Rattle.frame_ast.specs.SameJobs.{SameJob};
ghost use Rattle.frame_script.specs.Copies.{IsCopyOf, IsCopy, has_no_lists};

use frame_ast::script::{NewJob, Order, Statement};
use job_base::NoMemory;
use std::alloc::Global;

/// A copy of a statement, with lists of its own.
pub fn copy_of(alloc: Global, statement: &Statement) -> Result<Statement, NoMemory>
    ensures { IfOk result (λ copy. IsCopy statement.now copy) }
{
    let act = order_copy(alloc, &statement.act)?;
    Ok(Statement {
        line: statement.line,
        act,
    })
}

/// A copy of one of the small statements that long blocks have most; none of any other.
// None is a shortcut: then `copy_of` makes the copy. No `when` is among them, so none has to be counted.
#[inline(always)]
pub fn small_copy(order: &Order) -> Option<Order>
    ensures copy { IfSome result (λ copy. IsCopyOf order.now copy) }
    ensures plain { IfSome result (λ copy. is_when copy ≡ false) }
{
    match order {
        Order::Set { name, at, value } => Some(Order::Set {
            name: *name,
            at: *at,
            value: *value,
        }),
        Order::Add {
            name,
            first,
            second,
        } => Some(Order::Add {
            name: *name,
            first: *first,
            second: *second,
        }),
        Order::Put { name, key, value } => Some(Order::Put {
            name: *name,
            key: *key,
            value: *value,
        }),
        Order::Remove { name, at } => Some(Order::Remove {
            name: *name,
            at: *at,
        }),
        Order::Clear { name } => Some(Order::Clear { name: *name }),
        Order::Complete { name } => Some(Order::Complete { name: *name }),
        Order::Print { name } => Some(Order::Print { name: *name }),
        Order::Array {
            name,
            len,
            life,
            values,
        } => Some(Order::Array {
            name: *name,
            len: *len,
            life: *life,
            values: *values,
        }),
        Order::List { name, cap, life } => Some(Order::List {
            name: *name,
            cap: *cap,
            life: *life,
        }),
        Order::Slice {
            name,
            of,
            start,
            len,
        } => Some(Order::Slice {
            name: *name,
            of: *of,
            start: *start,
            len: *len,
        }),
        Order::View { name, of } => Some(Order::View {
            name: *name,
            of: *of,
        }),
        Order::Copy { name, of } => Some(Order::Copy {
            name: *name,
            of: *of,
        }),
        Order::Column { .. }
        | Order::Reference { .. }
        | Order::Map { .. }
        | Order::Stream { .. }
        | Order::SetCapacity { .. }
        | Order::Schedule(_)
        | Order::Combine { .. }
        | Order::CompleteAuto { .. }
        | Order::Dispose { .. }
        | Order::DisposeAuto { .. }
        | Order::Flush
        | Order::Frame
        | Order::When { .. } => None,
    }
}

fn job_copy(alloc: Global, job: &NewJob) -> Result<NewJob, NoMemory>
    ensures { IfOk result (λ copy. SameJob copy job.now) }
{
    Ok(NewJob {
        auto: job.auto,
        handle: job.handle,
        kernel: job.kernel,
        args: job.args.to_vec(alloc)?,
        cut: job.cut,
        defer: job.defer,
        waive: job.waive.to_vec(alloc)?,
        after: job.after.to_vec(alloc)?,
    })
}

fn order_copy(alloc: Global, order: &Order) -> Result<Order, NoMemory>
    ensures { IfOk result (λ copy. IsCopyOf order.now copy) }
{
    match order {
        Order::Column { name, column, life } => Ok(Order::Column {
            name: *name,
            column: column.to_vec(alloc)?,
            life: *life,
        }),
        Order::Schedule(job) => {
            let copy = Box::new(alloc, job_copy(alloc, job)?)?;
            Ok(Order::Schedule(copy))
        }
        Order::Combine { name, of } => Ok(Order::Combine {
            name: *name,
            of: of.to_vec(alloc)?,
        }),
        Order::Dispose {
            name,
            after,
            handle,
        } => Ok(Order::Dispose {
            name: *name,
            after: after.to_vec(alloc)?,
            handle: *handle,
        }),
        order => Ok(plain_copy(order)),
    }
}

// TO ADD A STATEMENT: 11, its copy; above where it has a list.

// A copy of a statement without lists.
fn plain_copy(order: &Order) -> Order
    requires { IsTrue (has_no_lists order.now) }
    ensures { result ≡ order.now }
{
    match order {
        Order::Array {
            name,
            len,
            life,
            values,
        } => Order::Array {
            name: *name,
            len: *len,
            life: *life,
            values: *values,
        },
        Order::Column { .. } => unreachable!(),
        Order::List { name, cap, life } => Order::List {
            name: *name,
            cap: *cap,
            life: *life,
        },
        Order::Reference { name, life, value } => Order::Reference {
            name: *name,
            life: *life,
            value: *value,
        },
        Order::Map { name, cap, life } => Order::Map {
            name: *name,
            cap: *cap,
            life: *life,
        },
        Order::Stream {
            name,
            count,
            room,
            life,
        } => Order::Stream {
            name: *name,
            count: *count,
            room: *room,
            life: *life,
        },
        Order::Slice {
            name,
            of,
            start,
            len,
        } => Order::Slice {
            name: *name,
            of: *of,
            start: *start,
            len: *len,
        },
        Order::View { name, of } => Order::View {
            name: *name,
            of: *of,
        },
        Order::Copy { name, of } => Order::Copy {
            name: *name,
            of: *of,
        },
        Order::Set { name, at, value } => Order::Set {
            name: *name,
            at: *at,
            value: *value,
        },
        Order::Add {
            name,
            first,
            second,
        } => Order::Add {
            name: *name,
            first: *first,
            second: *second,
        },
        Order::Put { name, key, value } => Order::Put {
            name: *name,
            key: *key,
            value: *value,
        },
        Order::Remove { name, at } => Order::Remove {
            name: *name,
            at: *at,
        },
        Order::Clear { name } => Order::Clear { name: *name },
        Order::SetCapacity { name, cap } => Order::SetCapacity {
            name: *name,
            cap: *cap,
        },
        Order::Schedule(_) => unreachable!(),
        Order::Combine { .. } => unreachable!(),
        Order::Complete { name } => Order::Complete { name: *name },
        Order::CompleteAuto { name } => Order::CompleteAuto { name: *name },
        Order::Dispose { .. } => unreachable!(),
        Order::DisposeAuto { name, handle } => Order::DisposeAuto {
            name: *name,
            handle: *handle,
        },
        Order::Print { name } => Order::Print { name: *name },
        Order::Flush => Order::Flush,
        Order::Frame => Order::Frame,
        Order::When {
            name,
            sign,
            value,
            count,
        } => Order::When {
            name: *name,
            sign: *sign,
            value: *value,
            count: *count,
        },
    }
}
