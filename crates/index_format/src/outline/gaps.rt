ghost use Rattle.std.specs.Prelude.{◌≡◌, ◌++◌, ◌+◌, ◌^◌, ◌≤◌, All, OnOk};
ghost use Rattle.std.specs.List.Sorted.{IsStrictlyIncreasing};
ghost use Rattle.index_format.specs.OutlineLists.{gap_bits};

use bit_stream::BitWriter;
use track_types::Memory;

/// Puts objects, ascending, by their gaps.
pub fn put_objects(writer: &mut BitWriter, objects: &[u32]) -> Result<(), Memory>
    requires { IsStrictlyIncreasing objects.now }
    ensures { OnOk result (writer.new ≡ writer.old ++ gap_bits objects.now) }
{
    let mut least = 0;
    for &object in objects {
        writer.put_number(u64::from(object) - least)?;
        least = u64::from(object) + 1;
    }
    Ok(())
}

/// Puts values of the alphabet, ascending and below `2^56 - 1`, by their gaps.
pub fn put_values(writer: &mut BitWriter, values: &[u64]) -> Result<(), Memory>
    requires ascending { IsStrictlyIncreasing values.now }
    requires small { All (λ value. value + 2 ≤ 2 ^ 56) values.now }
    ensures { OnOk result (writer.new ≡ writer.old ++ gap_bits values.now) }
{
    let mut least = 0;
    for &value in values {
        writer.put_number(value - least)?;
        least = value + 1;
    }
    Ok(())
}
