// The three numbers.

#[derive(Clone, Copy, Default)]
pub struct Totals {
    // Pins whose page was held.
    pub hits: u64,
    // Pins that loaded their page.
    pub loads: u64,
    // The probes of all sweeps.
    pub probes: u64,
}
