//! A record that passed the check: its ranges stand in its type, so that no arithmetic on it tests them again.
ghost use Rattle.service.specs.Rows.{IsRow};

use crate::Record;

#[derive(Clone, Copy)]
pub struct Row {
    pub told: Record,
    ghost fits: { IsRow told },
}

pub mod check;
