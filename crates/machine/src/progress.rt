// What a granted instruction leads to.

#[derive(Clone, Copy)]
pub enum Progress {
    GoesOn,
    Halts,
}
