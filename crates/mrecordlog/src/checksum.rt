// The checksum alone, for the benchmark beside crc32fast.
ghost use Rattle.std.specs.Prelude.{◌≡◌, ◌∷◌};
ghost use Rattle.crc32.specs.Crc.{crc32};

// CRC-32 over a frame's type byte and then its data.
#[unsafe(no_mangle)]
pub extern "C" fn mrecordlog_checksum(frame_type: u8, data: &[u8]) -> u32
    ensures { result ≡ crc32 (frame_type ∷ «data».now) }
{
    crc32_fold::checksum(frame_type, data)
}
