//! Links over TCP, and a link over a socket with listed results.

mod listed;
mod listed_socket;
mod over_tcp;
