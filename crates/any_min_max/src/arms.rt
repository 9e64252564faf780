//! What is done alike for each variant of the enums of least and greatest.

/// The reduction of numbers, without groups yet.
macro_rules! numbers {
    ($alloc:expr, $dtype:expr) => {
        VecMaskGroupedReduction::new($alloc, $dtype, NumReducer::new())
    };
}

/// The same for the reduction of a variant, whichever it is.
macro_rules! each {
    ($any:ident, $this:expr, $inner:ident => $body:expr) => {
        match $this {
            $any::Boolean($inner) => $body,
            $any::I8($inner) => $body,
            $any::I16($inner) => $body,
            $any::I32($inner) => $body,
            $any::I64($inner) => $body,
            $any::I128($inner) => $body,
            $any::U8($inner) => $body,
            $any::U16($inner) => $body,
            $any::U32($inner) => $body,
            $any::U64($inner) => $body,
            $any::Bytes($inner) => $body,
        }
    };
}

/// What is made of the reduction of a variant, in the same variant.
macro_rules! each_in {
    ($any:ident, $this:expr, $inner:ident => $body:expr) => {
        match $this {
            $any::Boolean($inner) => $any::Boolean($body),
            $any::I8($inner) => $any::I8($body),
            $any::I16($inner) => $any::I16($body),
            $any::I32($inner) => $any::I32($body),
            $any::I64($inner) => $any::I64($body),
            $any::I128($inner) => $any::I128($body),
            $any::U8($inner) => $any::U8($body),
            $any::U16($inner) => $any::U16($body),
            $any::U32($inner) => $any::U32($body),
            $any::U64($inner) => $any::U64($body),
            $any::Bytes($inner) => $any::Bytes($body),
        }
    };
}

/// The same for two reductions of one variant.
macro_rules! both {
    ($any:ident, $this:expr, $other:expr, $ours:ident, $theirs:ident => $body:expr) => {
        match ($this, $other) {
            ($any::Boolean($ours), $any::Boolean($theirs)) => return $body,
            ($any::I8($ours), $any::I8($theirs)) => return $body,
            ($any::I16($ours), $any::I16($theirs)) => return $body,
            ($any::I32($ours), $any::I32($theirs)) => return $body,
            ($any::I64($ours), $any::I64($theirs)) => return $body,
            ($any::I128($ours), $any::I128($theirs)) => return $body,
            ($any::U8($ours), $any::U8($theirs)) => return $body,
            ($any::U16($ours), $any::U16($theirs)) => return $body,
            ($any::U32($ours), $any::U32($theirs)) => return $body,
            ($any::U64($ours), $any::U64($theirs)) => return $body,
            ($any::Bytes($ours), $any::Bytes($theirs)) => return $body,
            _ => unreachable!(),
        }
    };
}

/// The parts of the reduction of a variant, each in the same variant.
macro_rules! parted {
    ($any:ident, $this:expr, $inner:ident, $alloc:expr, $sizes:expr, $idxs:expr) => {
        match $this {
            $any::Boolean($inner) => {
                parts_in($alloc, $inner, $sizes, $idxs, |part| $any::Boolean(part))
            }
            $any::I8($inner) => {
                parts_in($alloc, $inner, $sizes, $idxs, |part| $any::I8(part))
            }
            $any::I16($inner) => {
                parts_in($alloc, $inner, $sizes, $idxs, |part| $any::I16(part))
            }
            $any::I32($inner) => {
                parts_in($alloc, $inner, $sizes, $idxs, |part| $any::I32(part))
            }
            $any::I64($inner) => {
                parts_in($alloc, $inner, $sizes, $idxs, |part| $any::I64(part))
            }
            $any::I128($inner) => {
                parts_in($alloc, $inner, $sizes, $idxs, |part| $any::I128(part))
            }
            $any::U8($inner) => {
                parts_in($alloc, $inner, $sizes, $idxs, |part| $any::U8(part))
            }
            $any::U16($inner) => {
                parts_in($alloc, $inner, $sizes, $idxs, |part| $any::U16(part))
            }
            $any::U32($inner) => {
                parts_in($alloc, $inner, $sizes, $idxs, |part| $any::U32(part))
            }
            $any::U64($inner) => {
                parts_in($alloc, $inner, $sizes, $idxs, |part| $any::U64(part))
            }
            $any::Bytes($inner) => {
                parts_in($alloc, $inner, $sizes, $idxs, |part| $any::Bytes(part))
            }
        }
    };
}

pub(crate) use both;
pub(crate) use each;
pub(crate) use each_in;
pub(crate) use numbers;
pub(crate) use parted;
