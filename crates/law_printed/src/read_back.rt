// Theorems: text made of lines of a record is read back (`ReadBack/Printed.antt`). Its reading finds no bad line and tells the entries
// of those lines. Where they are good the text comes to the verdict that it is, and to no other. Each function does nothing,
// and carries a theorem.

ghost use Rattle.law_printed.specs.ReadBack.Printed.{LawfulIsOnly, LawfulIsRead, PrintedIsRead};

/// A text that is made of lines of a record is read with no bad line, and tells the entries of those lines.
pub fn printed_is_read()
    ensures { PrintedIsRead }
{}

/// Where these entries are good, the text is a record that was read to its end and is good.
pub fn lawful_is_read()
    ensures { LawfulIsRead }
{}

/// A record that was read to its end and is good comes to no other verdict.
pub fn lawful_is_only()
    ensures { LawfulIsOnly }
{}
