//! Seats that own a share of their queue, in threads of their own and dropped one by one; and leased ones.
mod leases;
mod shares;
mod threads;
