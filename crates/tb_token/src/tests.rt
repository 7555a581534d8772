mod cuts;
mod reads;
