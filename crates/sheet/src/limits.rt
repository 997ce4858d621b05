// How much a sheet may hold.
#[derive(Clone, Copy)]
pub struct Limits {
    pub formulas: usize,
    pub rules: usize,
    pub cells: u32,
}

// On the server.
pub const SERVER: Limits = Limits {
    formulas: 64,
    rules: 8,
    cells: 8_192,
};
