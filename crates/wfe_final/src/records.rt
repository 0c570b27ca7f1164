// What lawful records say of deleters, as the contract of a function that does nothing.
ghost use Rattle.wfe_final.specs.CalledOnce.{DeletersCalledOnce};

/// In each record of rows that are given and go back once, and that are not used again while they
/// stand: each deleter is called once at most, and only after its slot went back, when nothing stands
/// on it.
pub fn deleters_are_called_once()
    ensures { DeletersCalledOnce }
{}
