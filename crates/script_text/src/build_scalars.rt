//! What has been read of a statement but for its lists.

ghost use Rattle.std.specs.Prelude.{◌≡◌, true, MatchOption};
ghost use Rattle.script_text.specs.Raw.{form_of};
ghost use Rattle.script_text.specs.Reading.{is_scalar, scalars_plainly_after, scalars_after, signed_of, no_scalars, with_signed, ends_flat, ends_use, flat_form, used};

use crate::raw::{RawNumber, RawOrder, RawSizes};
use frame_ast::script::Life;
use frame_grammar::{Action, TokenAt};

/// The names that were read last, by the places of their tokens.
///
/// A statement's names stand in its text in one order, so where it is whole the last two tell which is which: in
/// `slice v a 0 2` the one before the last is v, which is made, and the last is a, of which v is a part. Names that are
/// followed by a list of others are kept apart before the list begins.
#[derive(Clone, Copy, Debug, PartialEq, Eq)]
pub struct LastNames {
    /// The v of `slice v a 0 2`.
    pub before_last: TokenAt,
    /// The a of `slice v a 0 2`, the x of `print x`.
    pub last: TokenAt,
    /// The last before a list of names: the h of `combine h j k`.
    pub opener: TokenAt,
    /// The last two before arguments: the h and the k of `schedule h k(x, 3)`.
    pub handle: TokenAt,
    pub kernel: TokenAt,
}

/// The Numbers, the operators and the signed numbers that were read last. Tokens are named by their places.
#[derive(Clone, Copy, Debug, PartialEq, Eq)]
pub struct LastNumbers {
    /// The 0 of `slice v a 0 2`.
    pub before_last: TokenAt,
    /// The 2 of `slice v a 0 2`; a Text in `column`.
    pub last: TokenAt,
    /// A comparison, where a `-` is read after it: the `<` of `when x < -3 {`.
    pub operator_before: TokenAt,
    /// The `-` of a signed number, or a comparison with a number that has none: the `<` of `when x < 3 {`.
    pub operator: TokenAt,
    /// The 1 of `set x 1 = -5`. None where a statement leaves it out.
    pub signed_before: Option<RawNumber>,
    /// The -5 of `set x 1 = -5`.
    pub signed: Option<RawNumber>,
}

/// What has been read of a statement but for its lists.
#[derive(Clone, Copy, Debug, PartialEq, Eq)]
pub struct Scalars {
    pub names: LastNames,
    pub numbers: LastNumbers,
    pub life: Life,
    pub auto: bool,
    pub sizes: RawSizes,
    /// Whether a list of names is being read.
    pub is_listing: bool,
}

// TO ADD A STATEMENT: 7, the event that ends it, here or, where it has a list, in build.rt, and in specs/Reading.

/// Whether a statement without lists, or what stands before its brace, is whole with this event.
pub fn ends_flat(action: Action) -> bool
    ensures { result ≡ ends_flat action }
{
    matches!(
        action,
        Action::ArrayStatement
            | Action::ColumnStatement
            | Action::ListStatement
            | Action::ReferenceStatement
            | Action::MapStatement
            | Action::StreamStatement
            | Action::SliceStatement
            | Action::ViewStatement
            | Action::CopyStatement
            | Action::SetStatement
            | Action::AddToStatement
            | Action::PutStatement
            | Action::RemoveFromStatement
            | Action::ClearOutStatement
            | Action::SetCapacityStatement
            | Action::CompleteStatement
            | Action::DisposeAutoStatement
            | Action::PrintStatement
            | Action::FlushStatement
            | Action::FrameStatement
            | Action::OpenRepeat
            | Action::OpenWhen
    )
}

/// The signed number, where there is one.
pub fn signed_of(number: Option<RawNumber>) -> RawNumber
    ensures { result ≡ signed_of number }
{
    number.unwrap_or(RawNumber {
        minus: false,
        at: TokenAt::of(0),
    })
}

impl Scalars {
    /// Of a statement of which nothing has been read.
    pub fn new() -> Self
        ensures { result ≡ no_scalars }
    {
        Scalars {
            names: LastNames {
                before_last: TokenAt::of(0),
                last: TokenAt::of(0),
                opener: TokenAt::of(0),
                handle: TokenAt::of(0),
                kernel: TokenAt::of(0),
            },
            numbers: LastNumbers {
                before_last: TokenAt::of(0),
                last: TokenAt::of(0),
                operator_before: TokenAt::of(0),
                operator: TokenAt::of(0),
                signed_before: None,
                signed: None,
            },
            life: Life::Persistent,
            auto: false,
            sizes: RawSizes::None,
            is_listing: false,
        }
    }

    fn take_signed(&mut self, number: Option<RawNumber>)
        ensures { self.new ≡ with_signed number self.old }
    {
        self.numbers.signed_before = self.numbers.signed;
        self.numbers.signed = number;
    }

    /// Takes the next event of a statement where it says a scalar outside its lists. Answers whether it does.
    #[inline(always)]
    pub fn take_scalar(&mut self, action: Action, place: TokenAt) -> bool
        ensures plain { result ≡ is_scalar action }
        ensures scalars { self.new ≡ scalars_plainly_after action place self.old }
    {
        let number = self.numbers.last;
        match action {
            Action::Name => {
                self.names.before_last = self.names.last;
                self.names.last = place;
            }
            Action::Number | Action::Text => {
                self.numbers.before_last = number;
                self.numbers.last = place;
            }
            Action::Operator => {
                self.numbers.operator_before = self.numbers.operator;
                self.numbers.operator = place;
            }
            Action::MinusNumber => self.take_signed(Some(RawNumber {
                minus: true,
                at: number,
            })),
            Action::PlainNumber => self.take_signed(Some(RawNumber {
                minus: false,
                at: number,
            })),
            Action::NoNumber => self.take_signed(None),
            Action::LifeTemp => self.life = Life::Temp,
            Action::LifeTempJob => self.life = Life::TempJob,
            Action::Auto => self.auto = true,
            Action::LifeNone | Action::LifePersistent | Action::NoValues | Action::NotAuto => {}
            _ => return false,
        }
        true
    }

    /// Takes the next event of a statement.
    pub fn take(&mut self, action: Action, place: TokenAt)
        ensures { self.new ≡ scalars_after action place self.old }
    {
        if self.take_scalar(action, place) {
            return;
        }
        match action {
            Action::OpenArguments => {
                self.names.handle = self.names.before_last;
                self.names.kernel = self.names.last;
            }
            Action::SizesLength => {
                self.sizes = RawSizes::Length(self.numbers.before_last, self.numbers.last);
            }
            Action::SizesDefer => {
                self.sizes = RawSizes::Defer(self.names.last, self.numbers.last);
            }
            Action::OpenNames => {
                self.names.opener = self.names.last;
                self.is_listing = true;
            }
            Action::Waived | Action::After => self.is_listing = false,
            _ => {}
        }
    }

    // The statement that is whole with this event, where it is one without lists that makes a name which is no handle.
    fn finish_made<'a>(&self, action: Action) -> Option<RawOrder<'a>>
        ensures { MatchOption result (ends_flat action ≡ true → ends_use action ≡ true)
            (λ order. form_of order ≡ flat_form action self.now) }
    {
        let name = self.names.last;
        let number = self.numbers.last;
        let life = self.life;
        match action {
            Action::ArrayStatement => Some(RawOrder::Array {
                name,
                len: number,
                life,
                values: None,
            }),
            Action::ColumnStatement => Some(RawOrder::Column {
                name,
                column: number,
                life,
            }),
            Action::ListStatement => Some(RawOrder::List {
                name,
                cap: number,
                life,
            }),
            Action::ReferenceStatement => Some(RawOrder::Reference {
                name,
                life,
                value: self.numbers.signed,
            }),
            Action::MapStatement => Some(RawOrder::Map {
                name,
                cap: number,
                life,
            }),
            Action::StreamStatement => Some(RawOrder::Stream {
                name,
                count: self.numbers.before_last,
                room: number,
                life,
            }),
            Action::SliceStatement => Some(RawOrder::Slice {
                name: self.names.before_last,
                of: name,
                start: self.numbers.before_last,
                len: number,
            }),
            Action::ViewStatement => Some(RawOrder::View {
                name: self.names.before_last,
                of: name,
            }),
            Action::CopyStatement => Some(RawOrder::Copy {
                name: self.names.before_last,
                of: name,
            }),
            _ => None,
        }
    }

    /// The statement without lists that is whole with this event.
    pub fn finish<'a>(&self, action: Action) -> RawOrder<'a>
        requires { ends_flat action ≡ true }
        ensures { form_of result ≡ flat_form action self.now }
    {
        match self.finish_made(action) {
            Some(order) => order,
            None => self.finish_use(action),
        }
    }

    // TO ADD A STATEMENT: 8, its raw form of what was read; above, where it makes a name; in build.rt, where it has a
    // list.

    /// The same of a statement that makes nothing but a handle.
    fn finish_use<'a>(&self, action: Action) -> RawOrder<'a>
        requires { ends_use action ≡ true }
        ensures { form_of result ≡ used action self.now }
    {
        let name = self.names.last;
        let number = self.numbers.last;
        let before_last = signed_of(self.numbers.signed_before);
        let value = signed_of(self.numbers.signed);
        match action {
            Action::SetStatement => RawOrder::Set {
                name,
                at: self.numbers.signed_before,
                value,
            },
            Action::AddToStatement => RawOrder::Add {
                name,
                first: before_last,
                second: self.numbers.signed,
            },
            Action::PutStatement => RawOrder::Put {
                name,
                key: before_last,
                value,
            },
            Action::RemoveFromStatement => RawOrder::Remove { name, at: value },
            Action::ClearOutStatement => RawOrder::Clear { name },
            Action::SetCapacityStatement => RawOrder::SetCapacity { name, cap: number },
            Action::CompleteStatement => RawOrder::Complete {
                auto: self.auto,
                name,
            },
            Action::DisposeAutoStatement => RawOrder::DisposeAuto {
                name: self.names.before_last,
                handle: name,
            },
            Action::PrintStatement => RawOrder::Print { name },
            Action::FlushStatement => RawOrder::Flush,
            Action::FrameStatement => RawOrder::Frame,
            Action::OpenRepeat => RawOrder::Repeat { count: number },
            Action::OpenWhen => RawOrder::When {
                name,
                // The `-` of the value was read after the comparison.
                sign: if value.minus {
                    self.numbers.operator_before
                } else {
                    self.numbers.operator
                },
                value,
            },
            _ => unreachable!(),
        }
    }
}
