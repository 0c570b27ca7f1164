// What a worker counts of its calls, and what is added up of all workers.
use wfe_table::Seat;

/// What a worker counts.
#[derive(Clone, Copy)]
pub struct Tally {
    /// Puts that were done.
    pub changes: u64,
    /// Puts that were refused.
    pub refused: u64,
    /// Rows that were retired.
    pub retired: u64,
    /// Rows that went back.
    pub back: u64,
    /// Lists that were left, and their rows.
    pub left: u64,
    pub left_rows: u64,
    /// Lists that were taken over, and their rows.
    pub taken: u64,
    pub taken_rows: u64,
    /// Answers that were not as they had to be.
    pub wrong: u64,
}

impl Tally {
    /// Of no calls.
    pub fn none() -> Tally {
        Tally {
            changes: 0,
            refused: 0,
            retired: 0,
            back: 0,
            left: 0,
            left_rows: 0,
            taken: 0,
            taken_rows: 0,
            wrong: 0,
        }
    }

    /// A put was done, or it was refused.
    pub fn change(&mut self, done: bool) {
        if done {
            self.changes = self.changes.saturating_add(1);
        } else {
            self.refused = self.refused.saturating_add(1);
        }
    }

    /// The rows that the seat's last call retired, and those that went back.
    pub fn follow(&mut self, seat: &Seat) {
        let notes = seat.notes();
        if notes.retired.is_some() {
            self.retired = self.retired.saturating_add(1);
        }
        self.back = self.back.saturating_add(notes.back.len() as u64);
    }

    /// A list of so many rows is left.
    pub fn hand(&mut self, rows: u64) {
        self.left = self.left.saturating_add(1);
        self.left_rows = self.left_rows.saturating_add(rows);
    }

    /// A list of so many rows was taken over.
    pub fn take(&mut self, rows: u64) {
        self.taken = self.taken.saturating_add(1);
        self.taken_rows = self.taken_rows.saturating_add(rows);
    }

    /// An answer was as it had to be, or it was not.
    pub fn judge(&mut self, right: bool) {
        if !right {
            self.wrong = self.wrong.saturating_add(1);
        }
    }

    /// Adds what another worker counted.
    pub fn add(&mut self, other: &Tally) {
        self.changes = self.changes.saturating_add(other.changes);
        self.refused = self.refused.saturating_add(other.refused);
        self.retired = self.retired.saturating_add(other.retired);
        self.back = self.back.saturating_add(other.back);
        self.left = self.left.saturating_add(other.left);
        self.left_rows = self.left_rows.saturating_add(other.left_rows);
        self.taken = self.taken.saturating_add(other.taken);
        self.taken_rows = self.taken_rows.saturating_add(other.taken_rows);
        self.wrong = self.wrong.saturating_add(other.wrong);
    }
}
