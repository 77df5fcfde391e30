//! Forms whose place in the store is known.

/// A form, by its place in the list of forms and the place of the store where it begins.
///
/// Behind the last form it is the number of forms, and the length of the store.
#[derive(Clone, Copy, Debug)]
pub struct Located {
    pub number: u32,
    pub start: u32,
}

/// Where the first form is.
pub const FIRST_FORM: Located = Located {
    number: 0,
    start: 0,
};
