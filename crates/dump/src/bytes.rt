// A number as 8 bytes, for those who read the dump.
pub use numbers::bytes::bytes_of;
