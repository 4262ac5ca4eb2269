// What the workspace and the answer buffer hold before a call, and must hold after it.

// What word i and byte i are before the call: never 0. Of a place its low 16 bits are taken, so that no remainder is one of 64 bits: the program's run has half the instructions.
pub(crate) trait Start: Copy + PartialEq + Default {
    fn start(i: usize) -> Self;
}

impl Start for u32 {
    fn start(i: usize) -> u32 {
        (i % 65536) as u32 + 1
    }
}

impl Start for u8 {
    fn start(i: usize) -> u8 {
        ((i % 65536) as u32 % 251) as u8 + 1
    }
}

pub(crate) fn fill<T: Start>(all: &mut [T]) {
    for (i, x) in all.iter_mut().enumerate() {
        *x = T::start(i);
    }
}

// What place i must hold after the call: what it held before, or else what `written` has there, which zeros follow.
fn wanted<T: Start>(written: Option<&[T]>, i: usize) -> T {
    match written {
        None => T::start(i),
        Some(written) => written.get(i).copied().unwrap_or_default(),
    }
}

// The first place that is not as it must be, if there is one.
pub(crate) fn first_wrong<T: Start>(all: &[T], written: Option<&[T]>) -> Option<usize> {
    all.iter()
        .enumerate()
        .position(|(i, x)| *x != wanted(written, i))
}
