// The numbers of the rules V1 to V12, by what each is about.

/// V1: the program, the image and the certificate fit together.
pub(crate) const FIT: u32 = 1;

/// V2: where the words of each function stand.
pub(crate) const RANGE: u32 = 2;

/// V3: the frame of each function.
pub(crate) const FRAME: u32 = 3;

/// V4: the places in each frame.
pub(crate) const PLACES: u32 = 4;

/// V5: the prologue of each function.
pub(crate) const PROLOGUE: u32 = 5;

/// V6: the words of each operation.
pub(crate) const OPERATIONS: u32 = 6;

/// V7: the end stub.
pub(crate) const STUB: u32 = 7;

/// V8: the words of the tables.
pub(crate) const TABLES: u32 = 8;

/// V9: what each linked call and each new thread needs.
pub(crate) const NEEDS: u32 = 9;

/// V10: the bound of each function that has a plain call.
pub(crate) const BOUNDS: u32 = 10;

/// V12: the words of the globals.
pub(crate) const GLOBALS: u32 = 12;
