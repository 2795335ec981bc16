//! Whether two values have the same content.

ghost use Rattle.std.specs.Prelude.{◌≡◌, ◌↔◌, IsTrue, option_map};

/// A value that can be compared with another of its type by content. Values that no call tells apart are the same.
pub trait Same {
    /// Whether both have the same content.
    fn same(&self, other: &Self) -> bool
        ensures { IsTrue result ↔ (self.now ≡ other.now) };
}

impl Same for bool {
    fn same(&self, other: &bool) -> bool {
        *self == *other
    }
}

impl Same for u8 {
    fn same(&self, other: &u8) -> bool {
        *self == *other
    }
}

impl Same for u32 {
    fn same(&self, other: &u32) -> bool {
        *self == *other
    }
}

impl Same for u64 {
    fn same(&self, other: &u64) -> bool {
        *self == *other
    }
}

impl Same for i64 {
    fn same(&self, other: &i64) -> bool {
        *self == *other
    }
}

impl Same for usize {
    fn same(&self, other: &usize) -> bool {
        *self == *other
    }
}

impl<A: Same, B: Same> Same for (A, B) {
    fn same(&self, other: &(A, B)) -> bool {
        self.0.same(&other.0) && self.1.same(&other.1)
    }
}

impl<T: Same> Same for Option<T> {
    fn same(&self, other: &Option<T>) -> bool {
        match (self, other) {
            (None, None) => true,
            (Some(value), Some(other)) => value.same(other),
            _ => false,
        }
    }
}

/// Whether both are a value and of the same content, or neither is one.
pub fn same_held<T: Same>(one: Option<&T>, other: Option<&T>) -> bool
    ensures { IsTrue result
        ↔ (option_map (λ v. v.now) one.entry ≡ option_map (λ v. v.now) other.entry) }
{
    match (one, other) {
        (None, None) => true,
        (Some(value), Some(other)) => value.same(other),
        _ => false,
    }
}

/// Whether two rows hold the same values in the same order.
#[tactic(auto, using(crate::specs::Rows::same_so_far, crate::specs::Rows::same_whole))]
pub fn same_rows<T: Same>(xs: &[T], ys: &[T]) -> bool
    ensures { IsTrue result ↔ (xs.now ≡ ys.now) }
{
    if xs.len() != ys.len() {
        return false;
    }
    for at in 0..xs.len() {
        if !xs[at].same(&ys[at]) {
            return false;
        }
    }
    true
}
