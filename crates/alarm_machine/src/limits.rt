/// The last moment of a scan, in milliseconds: a scan after it is refused (this profile).
pub const LAST_MOMENT: u64 = 4_000_000_000_000;

/// The longest time for which any alarm may be shelved, in milliseconds: 30 days (this profile).
pub const LONGEST_SHELVE_MS: u64 = 2_592_000_000;
