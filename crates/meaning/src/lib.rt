// What document 01 means stands in specs/, as definitions. There is no code here.
