mod bytes;
mod small;
