//! What a row of the table of settings says.

use crate::SettingKey;

/// The values that a setting takes, and how they are written.
#[derive(Clone, Copy, Debug, PartialEq, Eq, Drop)]
pub enum Kind {
    /// `true` or `false`.
    Flag,
    /// A whole number in decimal digits, both bounds included.
    Count {
        /// The least number.
        least: u32,
        /// The greatest number.
        most: u32,
    },
    /// A number of bytes up to 9223372036854775807: digits, behind them a unit or none.
    Size {
        /// The least number of bytes.
        least: u64,
    },
    /// A number of bytes as of `Size` from 0, or -1 for no size at all.
    Threshold,
    /// A decimal of at most three digits behind its point, from 0, kept in thousandths.
    Decimal {
        /// The greatest number of thousandths.
        most: u64,
    },
}

/// The value of a setting.
#[derive(Clone, Copy, Debug, PartialEq, Eq, Drop)]
pub enum Value {
    /// On or off, of the kind `Flag`.
    Flag(bool),
    /// A count, bytes or thousandths, of the kinds `Count`, `Size` and `Decimal`.
    Number(u64),
    /// Bytes or -1, of the kind `Threshold`.
    Threshold(i64),
    /// No value. Only a setting that is unset by default can be so.
    Unset,
}

/// A row of the table of settings.
#[derive(Clone, Copy, Debug, Drop)]
pub struct Entry {
    /// Which setting it is.
    pub key: SettingKey,
    /// The key as it is written, compared byte for byte.
    pub text: &'static str,
    /// The values that it takes.
    pub kind: Kind,
    /// The value that holds where nothing sets it.
    pub default: Value,
}
