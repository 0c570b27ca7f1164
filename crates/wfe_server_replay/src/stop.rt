// Why a replay stops.
use wfe_server_out::Fault;
use wfe_trace::BadLine;

/// Why no more of a trace is taken.
#[derive(Clone, Copy)]
pub enum Stop {
    Bad { bad: BadLine },
    Fault { fault: Fault },
}
