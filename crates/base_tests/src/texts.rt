mod accounts;
mod scripts;
mod workloads;
