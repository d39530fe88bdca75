// Copying bytes over the first ones of an output.
#![tactic(auto)]

ghost use Rattle.std.specs.Prelude.{◌≡◌, ◌++◌, ◌≤◌, length, take, drop};

// Writes the bytes over the first ones of the output, and leaves the rest of it. Kept as it is: docs/PROMISES.md names it.
pub fn copy(bytes: &[u8], output: &mut [u8])
    requires { length bytes.now ≤ length output.old }
    ensures same_length { length output.new ≡ length output.old }
    ensures written { output.new ≡ take (length bytes.now) bytes.now ++ drop (length bytes.now) output.old }
{
    output[..bytes.len()].copy_from_slice(bytes);
}
