use hb_base::Name;

/// Where a field lies: so many bits, with `at` bits after them.
#[derive(Clone, Copy, Debug, PartialEq, Eq)]
pub struct FieldPlace {
    pub name: Name,
    pub at: u32,
    pub width: u32,
}
