// The bucket of a hash: by a mask where the number of buckets is a power of two, which is quicker than a division.

ghost use Rattle.std.specs.Prelude.{◌≡◌, ◌%◌, ◌<◌};
ghost use Rattle.buftag.specs.Bucket.{Masks};

// The mask for a number of buckets that is a power of two; for another there is none.
pub fn mask_of(buckets: u32) -> Option<u32>
    ensures { Masks buckets result }
{
    if buckets.is_power_of_two() {
        Some(buckets - 1)
    } else {
        None
    }
}

// The bucket of a hash: by the mask if there is one, else by the division.
pub fn bucket_by(h: u32, buckets: u32, mask: Option<u32>) -> u32
    requires { (0 < buckets) × Masks buckets mask }
    ensures { result ≡ h % buckets }
{
    match mask {
        Some(bits) => h & bits,
        None => h % buckets,
    }
}
