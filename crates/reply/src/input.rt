// The parts of the program's input.
ghost use Rattle.std.specs.Prelude.{◌≡◌, ℕ};
ghost use Rattle.reply.specs.Inputs.{job_part};

/// The job: as many bytes after the first two as those two say, high byte first, as far as they are there.
pub fn job_part(input: &[u8]) -> &[u8]
    ensures { result.now ≡ job_part input.now }
{
    let [high, low, ..] = input else {
        return &input[0..0];
    };
    let length = 256 * *high as usize + *low as usize;
    let end = (2 + length).min(input.len());
    &input[2..end]
}
