// What this end of a connection says in its Open, checked once and kept. The container-id is lent where it is needed.
#![tactic(auto)]

ghost use Rattle.std.specs.Prelude.{◌≡◌};
ghost use Rattle.octets.specs.Output.{Wrote};
ghost use Rattle.frame_encoder.specs.Frames.{write_open};
ghost use Rattle.frame_encoder.specs.Answers.{settings_say};
ghost use Rattle.local_open.specs.Settings.{open_says, new_says, checked};

use frame_encoder::Settings;
use octets::Refusal;

#[derive(Clone, Copy)]
pub struct LocalOpen {
    max_frame_size: u32,
    channel_max: u16,
    idle_time_out: Option<u32>,
}

impl LocalOpen {
    // Checks settings, and keeps all but the container-id. Those beyond their limits are refused as `OutOfBounds`.
    pub fn new(settings: &Settings<'_>) -> Result<LocalOpen, Refusal>
        ensures { new_says settings.now.container_id.now result ≡ checked (settings_say settings.now) }
    {
        if !frame_encoder::settings_ok(settings) {
            return Err(Refusal::OutOfBounds);
        }
        Ok(LocalOpen {
            max_frame_size: settings.max_frame_size,
            channel_max: settings.channel_max,
            idle_time_out: settings.idle_time_out,
        })
    }

    pub fn max_frame_size(self) -> u32
        ensures { result ≡ self.max_frame_size }
    {
        self.max_frame_size
    }

    pub fn channel_max(self) -> u16
        ensures { result ≡ self.channel_max }
    {
        self.channel_max
    }

    pub fn idle_time_out(self) -> Option<u32>
        ensures { result ≡ self.idle_time_out }
    {
        self.idle_time_out
    }

    // Writes the Open, with the container-id that is lent. The refusals are `NoRoom`, `OutOfBounds` and `OverWritingLimit`; `OutOfBounds` only where the container-id is not the one that was checked.
    pub fn write(self, container_id: &[u8], limit: u32, out: &mut [u8]) -> Result<usize, Refusal>
        ensures { Wrote (write_open (open_says container_id.now self) limit out.old) result out.old out.new }
    {
        let settings = Settings {
            container_id,
            max_frame_size: self.max_frame_size,
            channel_max: self.channel_max,
            idle_time_out: self.idle_time_out,
        };
        frame_encoder::write_open(&settings, limit, out)
    }
}
