// Numbers out of the answers, for the sums.
use connection::TickAnswer;
use endpoint::FrameAnswer;
use octets::Refusal;

pub(crate) fn handle_of(answer: Result<FrameAnswer, Refusal>) -> u64 {
    match answer {
        Ok(FrameAnswer::Forward { handle, .. }) => u64::from(handle),
        _ => 0,
    }
}

pub(crate) fn freed(answer: Result<u32, Refusal>) -> u64 {
    answer.map_or(0, u64::from)
}

pub(crate) fn channel_of(answer: Result<u16, Refusal>) -> u64 {
    answer.map_or(1000, u64::from)
}

pub(crate) fn idle_of(answer: Result<FrameAnswer, Refusal>) -> u64 {
    match answer {
        Ok(FrameAnswer::Opened { idle_time_out, .. }) => u64::from(idle_time_out),
        _ => 0,
    }
}

pub(crate) fn wrote(answer: Result<TickAnswer, Refusal>) -> u64 {
    match answer {
        Ok(TickAnswer::Wrote(n)) => n as u64,
        _ => 0,
    }
}
