//! One function for each number of bits that a schedule may ask for.

/// Calls a function for worlds of as many bits as this says, 16 to 32, which is its first parameter.
///
/// `by_bits!(bits, run<R>(alloc, reader))` calls `run::<16, R>(alloc, reader)` at 16.
#[macro_export]
macro_rules! by_bits {
    ($bits:expr, $run:ident $(<$more:ident>)? ($($given:expr),*)) => {
        match $bits {
            16 => $run::<16 $(, $more)?>($($given),*),
            17 => $run::<17 $(, $more)?>($($given),*),
            18 => $run::<18 $(, $more)?>($($given),*),
            19 => $run::<19 $(, $more)?>($($given),*),
            20 => $run::<20 $(, $more)?>($($given),*),
            21 => $run::<21 $(, $more)?>($($given),*),
            22 => $run::<22 $(, $more)?>($($given),*),
            23 => $run::<23 $(, $more)?>($($given),*),
            24 => $run::<24 $(, $more)?>($($given),*),
            25 => $run::<25 $(, $more)?>($($given),*),
            26 => $run::<26 $(, $more)?>($($given),*),
            27 => $run::<27 $(, $more)?>($($given),*),
            28 => $run::<28 $(, $more)?>($($given),*),
            29 => $run::<29 $(, $more)?>($($given),*),
            30 => $run::<30 $(, $more)?>($($given),*),
            31 => $run::<31 $(, $more)?>($($given),*),
            32 => $run::<32 $(, $more)?>($($given),*),
            _ => unreachable!(),
        }
    };
}
